// Instructions that read the input.
ghost use Rattle.std.specs.Prelude.{◌≡◌, ◌+◌, ◌≤◌, ◌<◌, ◌^◌, ◌∷◌, [], List, length, take, drop, IfOk, IfSome, OnOk};
ghost use Rattle.sp_base.specs.declared.kinds.PKind.TheVariants as error_is;
ghost use Rattle.sp_value.specs.Integers.{integer_of};
ghost use Rattle.sp_meaning_states.specs.States.{go};
ghost use Rattle.sp_meaning_states.specs.Reads.{Bytes};
ghost use Rattle.sp_code.specs.Machine.{At, Goes, read_next, raise};
ghost use Rattle.sp_meaning_states.specs.Types.{width_bytes};
ghost use Rattle.sp_machine.specs.declared.machine.Mode.TheVariants.{Running};
ghost use Rattle.sp_machine.specs.InPlace.{IsSlot, IsPut};
ghost use Rattle.sp_machine.specs.Plain.{state_of, reading_of, plain, reads_of, Leads, Does};
ghost use Rattle.sp_window.specs.Windows.{end_of, between, most};

use crate::in_place::Slot;
use crate::machine::{Machine, Stop};
use sp_base::{NoMemory, PKind};
use sp_code::IntForm;
use sp_numbers::Width;
use sp_value::read_int;
use sp_window::Window;

/// How many bytes an integer has.
fn bytes_of(width: Width) -> u64
    ensures { result ≡ width_bytes width }
{
    match width {
        Width::W8 => 1,
        Width::W16 => 2,
        Width::W32 => 4,
        Width::W64 => 8,
    }
}

impl Machine {
    /// The input moves to a place.
    #[inline(always)]
    fn go_to(&mut self, to: u64)
        ensures place { self.new.place ≡ to }
        ensures rest { self.new ≡ record self.old { place = to; high = self.new.high; count = self.new.count } }
        ensures goes { state_of self.new ≡ go to (state_of self.old) }
    {
        self.place = to;
        if self.high < to {
            self.high = to;
            self.count = 0;
        }
    }

    /// Gives the integer at the place, or waits for its bytes.
    #[inline(always)]
    pub(crate) fn read_integer(
        &mut self,
        form: IntForm,
        window: &Window,
        is_ended: bool,
    ) -> Result<Stop, NoMemory>
        requires running { self.old.mode ≡ Running }
        requires within { self.old.pc + 1 < 2 ^ 64 }
        requires base { window.now.base ≤ self.old.place }
        ensures { IfOk result (λ r. Does r [] [] (plain self.old) (plain self.new) (read_next
            (reads_of window.now is_ended (reading_of self.old) (Bytes (width_bytes form.width)))
            (λ t n bs. Goes [] (At (self.old.pc + 1) (integer_of form.little form.signed bs ∷ self.old.operands)
            self.old.stack (go (self.old.place + n) (state_of self.old))))
            (raise error_is.NoMatch self.old.stack (state_of self.old)) self.old.stack (state_of self.old))) }
    {
        let size = bytes_of(form.width);
        let end = window.end();
        if self.place <= end && size <= end - self.place {
            let to = self.place + size;
            let view = window.view(self.place, to);
            let value = read_int(view.part(0), form.little, form.signed);
            self.go_to(to);
            self.push_next(value)?;
            return Ok(Stop::GoesOn);
        }
        if is_ended {
            self.fails(PKind::Short);
            return Ok(Stop::GoesOn);
        }
        Ok(Stop::Need)
    }

    /// The place behind the integer at the place, where its bytes are there.
    #[inline(always)]
    pub(crate) fn integer_end(&self, form: IntForm, window: &Window) -> Option<u64>
        ensures { IfSome result (λ to. (to ≡ self.now.place + width_bytes form.width) × (to ≤ end_of window.now)) }
    {
        let end = window.end();
        let size = bytes_of(form.width);
        if self.place <= end && size <= end - self.place {
            Some(self.place + size)
        } else {
            None
        }
    }

    /// Gives the integer at the place, whose bytes are there, and stores it at once.
    #[tactic(auto, using(crate::proofs::InPlace::slot_behind))]
    #[inline(always)]
    pub(crate) fn read_in(
        &mut self,
        slot: Slot,
        form: IntForm,
        to: u64,
        window: &Window,
        is_ended: bool,
    )
        requires running { self.old.mode ≡ Running }
        requires within { self.old.pc + 1 + 1 + 1 < 2 ^ 64 }
        requires base { window.now.base ≤ self.old.place }
        requires end { to ≡ self.old.place + width_bytes form.width }
        requires bytes { to ≤ end_of window.now }
        requires there { IsSlot slot (state_of self.old) }
        ensures { IsPut slot (self.old.pc + 1) (read_next
            (reads_of window.now is_ended (reading_of self.old) (Bytes (width_bytes form.width)))
            (λ t n bs. Goes [] (At (self.old.pc + 1) (integer_of form.little form.signed bs ∷ self.old.operands)
            self.old.stack (go (self.old.place + n) (state_of self.old))))
            (raise error_is.NoMatch self.old.stack (state_of self.old)) self.old.stack (state_of self.old)) (plain self.new) }
    {
        let view = window.view(self.place, to);
        let value = read_int(view.part(0), form.little, form.signed);
        self.go_to(to);
        self.store_in(slot, value);
    }
}
