// How fields, elements and groups are read.
ghost use Rattle.std.specs.Prelude.{◌≡◌, None, IfOk, map};
ghost use Rattle.sp_ast.specs.Trees.{trees, span_of};
ghost use Rattle.sp_type_context.specs.Contexts.{Around};
ghost use Rattle.sp_type_operands.specs.Operands.{unknown};
ghost use Rattle.sp_type_context.specs.Typing.{typed_all, to_maybe};
ghost use Rattle.sp_types.specs.Integers.{int_word};
ghost use Rattle.sp_typed_units.specs.declared.readings.TokenOp.TheVariants as token_is;
ghost use Rattle.sp_typed_units.specs.Specs.{list_read, group_read};
ghost use Rattle.sp_type_context.specs.declared.places.Place.TheVariants.{Whole};
ghost use Rattle.sp_type_fields.specs.Readings.{fine, unnamed, misplaced, simple, broken, decoder, literal, or_empty, constant_read, constant_of_type, named_read, unit_spec, word_read, unknown_read, type_read, arguments, in_vain, with_arguments, started_decoder, decoder_called, called_word, called, vector_of, counting, container, contained, group_of, base_read, counted_read};

use crate::attributes::{Stored, stored_by};
use crate::constants::Constants;
use crate::optional::maybe_typed;
use crate::roles::{Kind, grouped};
use sp_ast::{
    AttributeKind, BaseKind, BaseView, CountKind, ExprKind, Members, PathKind, Ref, TypeKind,
    TypeView, is_present,
};
use sp_base::{ByteList, NoMemory, Span, Text, or_drop};
use sp_type_context::{Context, Place};
use sp_type_exprs::{to_maybe, typed_all};
use sp_typed::{Expr, ExprLevel, LeafOp, Many, ManyOp, NewOf, Written};
use sp_typed_units::{Attribute, Rare, ReadOp, Reading, Spec, SpecNode, TokenOp, UnitOf};
use sp_types::{Level, Maker, Type, Word, int_word};
use sp_words::AttributeName;
use std::alloc::Global;

/// How something is read, the type of what is read, and what attributes can stand on it.
#[derive(Drop)]
pub struct Read {
    pub spec: Spec,
    pub ty: Type,
    pub kind: Kind,
}

/// What has nothing wrong of its own.
fn fine(at: Span) -> Written
    ensures { result ≡ fine at }
{
    Written {
        span: at,
        unnamed: None,
        misplaced: None,
    }
}

fn unnamed(at: Span, name: Span) -> Written
    ensures { result ≡ unnamed at name }
{
    Written {
        span: at,
        unnamed: Some(name),
        misplaced: None,
    }
}

fn misplaced(at: Span, place: Span) -> Written
    ensures { result ≡ misplaced at place }
{
    Written {
        span: at,
        unnamed: None,
        misplaced: Some(place),
    }
}

/// A reading without parts.
fn simple(at: Span, ty: Type, kind: Kind, op: ReadOp) -> Result<Read, NoMemory>
    ensures { IfOk result (λ r. r ≡ simple at ty kind op) }
{
    let own = or_drop!(ty.copy(); ty, op);
    let reading = Reading {
        span: at,
        ty: own,
        op,
    };
    let spec = or_drop!(Spec::new(SpecNode::Read(reading)); ty);
    Ok(Read { spec, ty, kind })
}

fn broken(at: Span, wrong: Written) -> Result<Read, NoMemory>
    ensures { IfOk result (λ r. r ≡ broken at wrong) }
{
    let ty = Type::word(Word::Unknown);
    simple(at, ty, Kind::Broken, ReadOp::Broken(wrong))
}

/// The decoder of the library, which has its place elsewhere.
fn decoder(at: Span) -> Result<Read, NoMemory>
    ensures { IfOk result (λ r. r ≡ decoder at) }
{
    let reading = Reading {
        span: at,
        ty: Type::word(Word::Decoder),
        op: ReadOp::Broken(fine(at)),
    };
    Ok(Read {
        spec: Spec::new(SpecNode::Read(reading))?,
        ty: Type::word(Word::Unknown),
        kind: Kind::Broken,
    })
}

fn literal(at: Span, token: TokenOp, constant: Option<u32>) -> Result<Read, NoMemory>
    ensures { IfOk result (λ r. r ≡ literal at token constant) }
{
    let op = ReadOp::Token(token, constant);
    simple(at, Type::word(Word::Bytes), Kind::Literal, op)
}

fn bytes_of<V: Constants>(alloc: Global, constants: &V, e: &Expr) -> Result<ByteList, NoMemory>
    ensures { IfOk result (λ b. b ≡ or_empty ((V.values constants.now).bytes e.now)) }
{
    match constants.bytes(alloc, e)? {
        Some(bytes) => Ok(bytes),
        None => Ok(ByteList::new(alloc)),
    }
}

fn regex_of<V: Constants>(alloc: Global, constants: &V, e: &Expr) -> Result<Text, NoMemory>
    ensures { IfOk result (λ t. t ≡ or_empty ((V.values constants.now).regex e.now)) }
{
    match constants.regex(alloc, e)? {
        Some(text) => Ok(text),
        None => Text::new(alloc, ""),
    }
}

/// A constant of a type, where it stands in place of a type.
fn constant_read<V: Constants>(
    alloc: Global,
    constants: &V,
    at: Span,
    number: u32,
    ty: &Type,
    e: &Expr,
) -> Result<Read, NoMemory>
    ensures { IfOk result (λ r. r ≡ constant_of_type (V.values constants.now) at number ty.now
        e.now) }
{
    match ty.level() {
        Level::Word(Word::Bytes) => {
            let token = TokenOp::Bytes(bytes_of(alloc, constants, e)?);
            literal(at, token, Some(number))
        }
        Level::Word(Word::Regex) => {
            let token = TokenOp::Regex(regex_of(alloc, constants, e)?);
            literal(at, token, Some(number))
        }
        Level::Word(Word::Unknown) => broken(at, fine(at)),
        _ => broken(at, misplaced(at, at)),
    }
}

/// What a path is read as that is no type that can be read.
fn named_read<V: Constants>(
    alloc: Global,
    constants: &V,
    at: Span,
    e: &Expr,
) -> Result<Read, NoMemory>
    ensures { IfOk result (λ r. r ≡ named_read (V.values constants.now) at e.now) }
{
    match e.level() {
        ExprLevel::Leaf(head) => match &head.op {
            LeafOp::Constant(n) => constant_read(alloc, constants, at, *n, &head.ty, e),
            LeafOp::Nothing(name) => broken(at, unnamed(at, *name)),
            LeafOp::TypeName(_) => broken(at, fine(at)),
            _ => broken(at, misplaced(at, at)),
        },
        _ => broken(at, misplaced(at, at)),
    }
}

/// A unit with its arguments.
fn unit_spec(at: Span, unit: u32, arguments: Vec<Expr>) -> Result<Read, NoMemory>
    ensures { IfOk result (λ r. r ≡ unit_spec at unit arguments.items) }
{
    let spec = Spec::new(SpecNode::Unit(UnitOf { span: at, unit }, arguments))?;
    Ok(Read {
        spec,
        ty: Type::word(Word::Unit(unit)),
        kind: Kind::Unit,
    })
}

/// A word that is read.
fn word_read(alloc: Global, at: Span, word: Word) -> Result<Read, NoMemory>
    ensures { IfOk result (λ r. r ≡ word_read at word) }
{
    match word {
        Word::Uint(_) | Word::Int(_) => simple(at, Type::word(word), Kind::Integer, ReadOp::Int),
        Word::Bitfield(n) => simple(at, Type::word(word), Kind::Bitfield, ReadOp::Bits(n)),
        Word::Bytes => simple(at, Type::word(word), Kind::Bytes, ReadOp::Bytes),
        Word::Void => simple(at, Type::word(word), Kind::Void, ReadOp::Void),
        Word::Unit(n) => unit_spec(at, n, Vec::new(alloc)),
        Word::Decoder => decoder(at),
        _ => broken(at, misplaced(at, at)),
    }
}

/// What is written where a type may stand and is no type that is known.
fn unknown_read<C: Context, V: Constants>(
    alloc: Global,
    context: &C,
    constants: &V,
    at: Span,
    tree: &Ref<'_, TypeKind>,
) -> Result<Read, NoMemory>
    ensures { IfOk result (λ r. r ≡ unknown_read (C.around context.now) (V.values constants.now) at
        tree.now) }
{
    match tree.view() {
        TypeView::Path(path) => {
            let e = context.named(alloc, path.span(), &path)?;
            let read = named_read(alloc, constants, at, &e);
            drop(e);
            read
        }
        _ => broken(at, context.written(alloc, Place::Whole, tree)?),
    }
}

/// What a type is read as.
fn type_read<C: Context, V: Constants>(
    alloc: Global,
    context: &C,
    constants: &V,
    at: Span,
    tree: &Ref<'_, TypeKind>,
) -> Result<Read, NoMemory>
    ensures { IfOk result (λ r. r ≡ type_read (C.around context.now) (V.values constants.now) at
        tree.now ((C.around context.now).type_in Whole tree.now)) }
{
    let ty = context.type_in(alloc, Place::Whole, tree)?;
    match ty.level() {
        Level::Word(Word::Unknown) => {
            drop(ty);
            unknown_read(alloc, context, constants, at, tree)
        }
        Level::Word(word) => {
            drop(ty);
            word_read(alloc, at, word)
        }
        Level::Made(..) => {
            drop(ty);
            broken(at, misplaced(at, at))
        }
    }
}

/// An argument of this number, as it goes to its parameter.
fn argument<C: Context>(
    alloc: Global,
    context: &C,
    op: &ManyOp,
    number: usize,
    e: Expr,
) -> Result<Expr, NoMemory>
    ensures { IfOk result (λ r. r ≡ to_maybe ((C.around context.now).target op.now unknown number)
        e) }
{
    let unknown = Type::word(Word::Unknown);
    let to = context.target(op, &unknown, number);
    drop(unknown);
    let to = or_drop!(to; e);
    let sent = to_maybe(alloc, &to, e);
    drop(to);
    sent
}

/// The arguments of a unit, each as it goes to its parameter.
fn arguments<C: Context>(
    alloc: Global,
    context: &C,
    unit: u32,
    path: Span,
    list: Vec<Expr>,
) -> Result<Vec<Expr>, NoMemory>
    ensures { IfOk result (λ r. r.items ≡ arguments (C.around context.now) unit path list.items) }
{
    let op = ManyOp::New(NewOf::Unit(unit), path);
    let mut parts = Vec::new(alloc);
    for e in list {
        let number = parts.len();
        parts.push(argument(alloc, context, &op, number, e)?)?;
    }
    Ok(parts)
}

/// An argument of what is no unit, which goes nowhere.
fn in_vain(e: Expr) -> Attribute
    ensures { result ≡ in_vain e }
{
    Attribute {
        span: e.span(),
        name: AttributeName::Try,
        value: Some(e),
        number: None,
        bytes: None,
    }
}

fn all_in_vain(alloc: Global, list: Vec<Expr>) -> Result<Vec<Attribute>, NoMemory>
    ensures { IfOk result (λ r. r.items ≡ map in_vain list.items) }
{
    let mut all = Vec::new(alloc);
    for e in list {
        all.push(in_vain(e))?;
    }
    Ok(all)
}

fn group_spec(
    alloc: Global,
    at: Span,
    inner: Spec,
    attributes: Vec<Attribute>,
) -> Result<Spec, NoMemory>
    ensures { IfOk result (λ s. s ≡ group_read at inner attributes.items) }
{
    let inner = or_drop!(Box::new(alloc, inner); attributes);
    Ok(Spec::new(SpecNode::Group(at, inner, attributes))?)
}

/// What is no unit, with arguments.
fn with_arguments(alloc: Global, at: Span, list: Vec<Expr>, called: Read) -> Result<Read, NoMemory>
    ensures { IfOk result (λ r. r ≡ with_arguments at list.items called) }
{
    let arguments = or_drop!(all_in_vain(alloc, list); called);
    let Read { spec, ty, kind } = called;
    let spec = or_drop!(group_spec(alloc, at, spec, arguments); ty);
    Ok(Read { spec, ty, kind })
}

/// What can't be read here, with arguments.
fn broken_called(alloc: Global, at: Span, wrong: Written, list: Vec<Expr>) -> Result<Read, NoMemory>
    ensures { IfOk result (λ r. r ≡ with_arguments at list.items (broken at wrong)) }
{
    let read = or_drop!(broken(at, wrong); list);
    with_arguments(alloc, at, list, read)
}

/// The arguments of the decoder of the library, if there are any, in one: as those of a `new` of it.
fn started_decoder(alloc: Global, path: Span, list: Vec<Expr>) -> Result<Vec<Expr>, NoMemory>
    ensures { IfOk result (λ r. r.items ≡ started_decoder path list.items) }
{
    if list.is_empty() {
        return Ok(list);
    }
    let mut all = or_drop!(Vec::with_capacity(alloc, 1); list);
    let head = Many {
        span: path,
        ty: Type::word(Word::Unknown),
        op: ManyOp::New(NewOf::Decoder, path),
    };
    let started = or_drop!(Expr::many(head, list); all);
    or_drop!(all.push(started); all);
    Ok(all)
}

/// The decoder of the library, with arguments.
fn decoder_called(alloc: Global, at: Span, path: Span, list: Vec<Expr>) -> Result<Read, NoMemory>
    ensures { IfOk result (λ r. r ≡ decoder_called at path list.items) }
{
    let list = started_decoder(alloc, path, list)?;
    let read = or_drop!(decoder(at); list);
    with_arguments(alloc, at, list, read)
}

/// A unit with arguments.
fn unit_called<C: Context>(
    alloc: Global,
    context: &C,
    at: Span,
    path: Span,
    unit: u32,
    list: Vec<Expr>,
) -> Result<Read, NoMemory>
    ensures { IfOk result (λ r. r
        ≡ unit_spec at unit (arguments (C.around context.now) unit path list.items)) }
{
    let list = arguments(alloc, context, unit, path, list)?;
    unit_spec(at, unit, list)
}

fn called_word<C: Context>(
    alloc: Global,
    context: &C,
    at: Span,
    path: Span,
    word: Word,
    list: Vec<Expr>,
) -> Result<Read, NoMemory>
    ensures { IfOk result (λ r. r ≡ called_word (C.around context.now) at path word list.items) }
{
    match word {
        Word::Unit(n) => unit_called(alloc, context, at, path, n, list),
        Word::Unknown => broken_called(alloc, at, fine(at), list),
        Word::Decoder => decoder_called(alloc, at, path, list),
        _ => broken_called(alloc, at, misplaced(at, path), list),
    }
}

/// `U(a, b)`, where this is what the path is, and it stands here.
fn called<C: Context>(
    alloc: Global,
    context: &C,
    at: Span,
    path: Span,
    callee: &Expr,
    list: Vec<Expr>,
) -> Result<Read, NoMemory>
    ensures { IfOk result (λ r. r ≡ called (C.around context.now) at path callee.now list.items) }
{
    match callee.level() {
        ExprLevel::Leaf(head) => match &head.op {
            LeafOp::TypeName(word) => called_word(alloc, context, at, path, *word, list),
            LeafOp::Decoder => decoder_called(alloc, at, path, list),
            LeafOp::Nothing(name) => broken_called(alloc, at, unnamed(at, *name), list),
            _ => broken_called(alloc, at, misplaced(at, path), list),
        },
        _ => broken_called(alloc, at, misplaced(at, path), list),
    }
}

fn vector_of(alloc: Global, element: &Type) -> Result<Type, NoMemory>
    ensures { IfOk result (λ t. t ≡ vector_of element.now) }
{
    let mut parts = Vec::with_capacity(alloc, 1)?;
    let part = or_drop!(element.copy(); parts);
    or_drop!(parts.push(part); parts);
    Ok(Type::made(alloc, Maker::Vector, parts)?)
}

fn counting(count: &Option<Ref<'_, ExprKind>>) -> Kind
    ensures { result ≡ counting count.now }
{
    match count {
        Some(_) => Kind::Counted,
        None => Kind::Open,
    }
}

fn list_spec(alloc: Global, at: Span, element: Spec, number: Option<Expr>) -> Result<Spec, NoMemory>
    ensures { IfOk result (λ s. s ≡ list_read at element number) }
{
    let number = or_drop!(Rare::new(alloc, number); element);
    let inner = or_drop!(Box::new(alloc, element); number);
    Ok(Spec::new(SpecNode::List(at, inner, number))?)
}

/// A container of what is read, whose last bracket stands here.
fn container<C: Context>(
    alloc: Global,
    context: &C,
    at: Span,
    last: Span,
    count: &Option<Ref<'_, ExprKind>>,
    element: Read,
) -> Result<Read, NoMemory>
    ensures { IfOk result (λ r. r ≡ container (C.around context.now) at last count.now element) }
{
    let span = Span {
        from: at.from,
        to: last.to,
    };
    let number = or_drop!(maybe_typed(alloc, context, count); element);
    let ty = or_drop!(vector_of(alloc, &element.ty); element, number);
    let Read {
        spec: inner,
        ty: of,
        kind: _,
    } = element;
    drop(of);
    let spec = or_drop!(list_spec(alloc, span, inner, number); ty);
    Ok(Read {
        spec,
        ty,
        kind: counting(count),
    })
}

fn contained<C: Context>(
    alloc: Global,
    context: &C,
    at: Span,
    counts: &Members<'_, CountKind>,
    element: Read,
) -> Result<Read, NoMemory>
    ensures { IfOk result (λ r. r ≡ contained (C.around context.now) at (trees counts.now)
        element) }
{
    let mut read = element;
    for count in counts.again() {
        let number = count.number();
        is_present(&number);
        read = container(alloc, context, at, count.span(), &number, read)?;
    }
    Ok(read)
}

/// What stands in parentheses, with its attributes.
fn group_of<C: Context, V: Constants>(
    alloc: Global,
    context: &C,
    constants: &V,
    at: Span,
    list: &Members<'_, AttributeKind>,
    inner: Read,
) -> Result<Read, NoMemory>
    ensures { IfOk result (λ r. r ≡ group_of (C.around context.now) (V.values constants.now) at
        (trees list.now) inner) }
{
    let Read { spec, ty, kind } = inner;
    let stored = or_drop!(
        stored_by(alloc, context, constants, kind, ty, false, list);
        spec
    );
    let Stored { ty, attributes } = stored;
    let spec = or_drop!(group_spec(alloc, at, spec, attributes); ty);
    Ok(Read {
        spec,
        ty,
        kind: grouped(kind),
    })
}

/// What a path with arguments is read as.
fn path_called<C: Context>(
    alloc: Global,
    context: &C,
    at: Span,
    path: &Ref<'_, PathKind>,
    arguments: &Members<'_, ExprKind>,
) -> Result<Read, NoMemory>
    ensures { IfOk result (λ r. r ≡ called (C.around context.now) at (span_of path.now)
        ((C.around context.now).named (span_of path.now) path.now)
        (typed_all (C.around context.now) (trees arguments.now))) }
{
    let callee = context.named(alloc, path.span(), path)?;
    let list = or_drop!(typed_all(alloc, context, arguments); callee);
    let read = called(alloc, context, at, path.span(), &callee, list);
    drop(callee);
    read
}

/// What stands in parentheses, with its counts and its attributes.
fn group_counted<C: Context, V: Constants>(
    alloc: Global,
    context: &C,
    constants: &V,
    at: Span,
    base: Span,
    counts: &Members<'_, CountKind>,
    attributes: &Members<'_, AttributeKind>,
    inner: Read,
) -> Result<Read, NoMemory>
    ensures { IfOk result (λ r. r ≡ group_of (C.around context.now) (V.values constants.now) at
        (trees attributes.now) (contained (C.around context.now) base (trees counts.now)
        inner)) }
{
    let inner = contained(alloc, context, base, counts, inner)?;
    group_of(alloc, context, constants, at, attributes, inner)
}

/// Literal bytes that are looked for.
fn bytes_literal(alloc: Global, at: Span, bytes: &[u8]) -> Result<Read, NoMemory>
    ensures { IfOk result (λ r. r ≡ literal at (token_is.Bytes bytes.now) None) }
{
    let token = TokenOp::Bytes(ByteList::from_slice(alloc, bytes)?);
    literal(at, token, None)
}

/// A literal regular expression that is looked for.
fn regex_literal(alloc: Global, at: Span, text: &str) -> Result<Read, NoMemory>
    ensures { IfOk result (λ r. r ≡ literal at (token_is.Regex text.now) None) }
{
    let token = TokenOp::Regex(Text::new(alloc, text)?);
    literal(at, token, None)
}

/// How a base is read, apart from counts behind it.
#[cycle(base)]
fn base_read<C: Context, V: Constants>(
    alloc: Global,
    context: &C,
    constants: &V,
    base: &Ref<'_, BaseKind>,
) -> Result<Read, NoMemory>
    ensures { IfOk result (λ r. r ≡ base_read (C.around context.now) (V.values constants.now)
        base.now) }
{
    let at = base.span();
    match base.view() {
        BaseView::Type(tree) => type_read(alloc, context, constants, at, &tree),
        BaseView::Unit { path, arguments } => path_called(alloc, context, at, &path, &arguments),
        BaseView::Group {
            base,
            counts,
            attributes,
        } => {
            let inner = base_read(alloc, context, constants, &base)?;
            let of = base.span();
            group_counted(
                alloc,
                context,
                constants,
                at,
                of,
                &counts,
                &attributes,
                inner,
            )
        }
        BaseView::Bytes(bytes) => bytes_literal(alloc, at, bytes),
        BaseView::Regex(text) => regex_literal(alloc, at, text),
        BaseView::Number(word, number) => {
            let op = ReadOp::Token(TokenOp::Number(number.value()), None);
            simple(at, Type::word(int_word(word)), Kind::TypedLiteral, op)
        }
    }
}

/// How a base with counts behind it is read: a container for each.
pub fn counted_read<C: Context, V: Constants>(
    alloc: Global,
    context: &C,
    constants: &V,
    base: &Ref<'_, BaseKind>,
    counts: &Members<'_, CountKind>,
) -> Result<Read, NoMemory>
    ensures { IfOk result (λ r. r ≡ counted_read (C.around context.now) (V.values constants.now)
        base.now (trees counts.now)) }
{
    let read = base_read(alloc, context, constants, base)?;
    contained(alloc, context, base.span(), counts, read)
}

/// The type of what is read.
pub fn read_type<C: Context, V: Constants>(
    alloc: Global,
    context: &C,
    constants: &V,
    base: &Ref<'_, BaseKind>,
    counts: &Members<'_, CountKind>,
) -> Result<Type, NoMemory>
    ensures { IfOk result (λ t. t ≡ (counted_read (C.around context.now) (V.values constants.now)
        base.now (trees counts.now)).ty) }
{
    let read = counted_read(alloc, context, constants, base, counts)?;
    let Read { spec, ty, kind: _ } = read;
    drop(spec);
    Ok(ty)
}
