// The byte orders of modules.
ghost use Rattle.std.specs.Prelude.{◌≡◌, ◌++◌, IfOk, OnOk};
ghost use Rattle.sp_solver.specs.Told.{told};
ghost use Rattle.sp_type_declarations.specs.FunctionsAndOrders.{declared_order, orders};
ghost use Rattle.sp_type_fields.specs.Orders.{order_of};

use sp_ast::DeclView;
use sp_base::{NoMemory, or_drop};
use sp_names::{RowTree, RowView};
use sp_type_fields::order_of;
use sp_type_modules::Here;
use sp_type_values::Known;
use sp_typed_units::OrderProperty;
use sp_types::Type;
use std::alloc::Global;

/// Adds the byte order of a module, if a declaration is one.
fn add_order(
    alloc: Global,
    known: &Known<'_>,
    stored: &[Option<Type>],
    all: &mut Vec<OrderProperty>,
    module: u32,
    tree: &RowTree<'_>,
) -> Result<(), NoMemory>
    ensures { OnOk result (all.new.items ≡ all.old.items ++ declared_order known.now.row.now.0
        (told known.now.row.now.1) (told known.now.answers.now) (told stored.now) «module»
        tree.now) }
{
    match tree.view() {
        RowView::Declared(DeclView::ByteOrder(path)) => {
            let here = Here {
                tables: known.row.tables(),
                stored,
                constants: known,
                owner: module,
            };
            all.push(order_of(alloc, &here, known, module, &path)?)?;
            Ok(())
        }
        _ => Ok(()),
    }
}

/// The byte orders of all modules, in the order of the text.
pub fn orders(
    alloc: Global,
    known: &Known<'_>,
    stored: &[Option<Type>],
) -> Result<Vec<OrderProperty>, NoMemory>
    ensures { IfOk result (λ v. v.items ≡ orders known.now.row.now.0 (told known.now.row.now.1)
        (told known.now.answers.now) (told stored.now)) }
{
    let rows = known.row.tables().names().rows();
    let mut all = Vec::new(alloc);
    for row in rows {
        or_drop!(
            add_order(alloc, known, stored, &mut all, row.module, &row.tree);
            all
        );
    }
    Ok(all)
}
