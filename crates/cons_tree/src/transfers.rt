//! The rows of the transfers, on the array.
ghost use Rattle.std.specs.Prelude.{◌≡◌, IfOk, map};
ghost use Rattle.std.specs.List.{list_any, list_all};
ghost use Rattle.cons_tree.specs.declared.parts.Transfer.TheVariants as transfer;
ghost use Rattle.cons_tree.specs.Environments.{type_at};
ghost use Rattle.cons_tree.specs.Named.{has_integer, has_float, arithmetic};
ghost use Rattle.cons_tree.specs.Narrowing.{transferred, is_true, is_false, alike, meets, only_where};
ghost use Rattle.cons_tree.specs.Trails.{answer, Trailed};

use crate::named::{
    absolute_type, false_type, holds_float, holds_integer, integer_type, number_type, other_type,
    same_type, selected_type, some_tested_type, tested_type, true_type,
};
use crate::parts::{Slot, Transfer};
use crate::signatures::discard;
use crate::slots::Slots;
use std::alloc::Global;
use type_kinds::Memory;
use type_lattice::Ty;

impl Slots {
    // Whether each of the slots has an integer.
    fn all_integers(&self, slots: &[Slot]) -> bool
        ensures { result ≡ list_all has_integer (map (type_at self.now.types) slots.now) }
    {
        for at in 0..slots.len() {
            let holds = holds_integer(self.at(slots[at]));
            if !holds {
                return false;
            }
        }
        true
    }

    // Whether one of the slots has a float.
    fn any_float(&self, alloc: Global, slots: &[Slot]) -> Result<bool, Memory>
        ensures { IfOk result (λ b. b ≡ list_any has_float (map (type_at self.now.types) slots.now)) }
    {
        for at in 0..slots.len() {
            let holds = holds_float(alloc, self.at(slots[at]))?;
            if holds {
                return Ok(true);
            }
        }
        Ok(false)
    }

    // Whether the slot is below `true`.
    fn says_true(&self, alloc: Global, slot: Slot) -> Result<bool, Memory>
        ensures { IfOk result (λ b. b ≡ is_true slot self.now.types) }
    {
        let yes = true_type(alloc)?;
        let answer = self.at(slot).leq(&yes);
        discard(yes);
        Ok(answer)
    }

    // Whether the slot is below `false`.
    fn says_false(&self, alloc: Global, slot: Slot) -> Result<bool, Memory>
        ensures { IfOk result (λ b. b ≡ is_false slot self.now.types) }
    {
        let no = false_type(alloc)?;
        let answer = self.at(slot).leq(&no);
        discard(no);
        Ok(answer)
    }

    /// Narrows by a transfer the slot of the value and those of the arguments, and says whether an
    /// environment is left. If allocation fails, the array's contents are unspecified.
    pub fn transfer(
        &mut self,
        alloc: Global,
        transfer: &Transfer,
        value: Slot,
        args: &[Slot],
    ) -> Result<bool, Memory>
        ensures value { IfOk result (λ alive. transferred transfer.now value args.now self.old.types ≡ answer alive self.new.types) }
        ensures trailed { IfOk result (λ _. Trailed self.old self.new) }
    {
        match transfer {
            Transfer::Plain(ty) => self.lower_shared(alloc, value, ty),
            Transfer::Arith => self.arith(alloc, value, args),
            Transfer::Abs => self.abs(alloc, value, args),
            Transfer::Head => self.head(alloc, value, args),
            Transfer::Tail => self.tail(alloc, value, args),
            Transfer::Element => self.element(alloc, value, args),
            Transfer::Test(ty) => self.test(alloc, ty.get(), value, args),
            Transfer::TestSome(ty) => self.test_some(alloc, ty.get(), value, args),
            Transfer::Same => self.same(alloc, value, args),
            Transfer::Differ => self.differ(alloc, value, args),
            Transfer::Never => self.lower_to(alloc, value, Ty::none()),
        }
    }

    fn arith(&mut self, alloc: Global, value: Slot, args: &[Slot]) -> Result<bool, Memory>
        ensures value { IfOk result (λ alive. transferred transfer.Arith value args.now self.old.types ≡ answer alive self.new.types) }
        ensures trailed { IfOk result (λ _. Trailed self.old self.new) }
    {
        let some_float = self.any_float(alloc, args)?;
        let integers = self.all_integers(args);
        let gives = number_type(alloc, integer_type(), integers, some_float)?;
        self.lower_to(alloc, value, gives)
    }

    fn abs(&mut self, alloc: Global, value: Slot, args: &[Slot]) -> Result<bool, Memory>
        ensures value { IfOk result (λ alive. transferred transfer.Abs value args.now self.old.types ≡ answer alive self.new.types) }
        ensures trailed { IfOk result (λ _. Trailed self.old self.new) }
    {
        let [number, ..] = args else {
            return Ok(true);
        };
        let gives = absolute_type(alloc, self.at(*number))?;
        self.lower_to(alloc, value, gives)
    }

    fn head(&mut self, alloc: Global, value: Slot, args: &[Slot]) -> Result<bool, Memory>
        ensures value { IfOk result (λ alive. transferred transfer.Head value args.now self.old.types ≡ answer alive self.new.types) }
        ensures trailed { IfOk result (λ _. Trailed self.old self.new) }
    {
        let [list, ..] = args else {
            return Ok(true);
        };
        let gives = self.at(*list).elem(alloc)?;
        self.lower_to(alloc, value, gives)
    }

    fn tail(&mut self, alloc: Global, value: Slot, args: &[Slot]) -> Result<bool, Memory>
        ensures value { IfOk result (λ alive. transferred transfer.Tail value args.now self.old.types ≡ answer alive self.new.types) }
        ensures trailed { IfOk result (λ _. Trailed self.old self.new) }
    {
        let [list, ..] = args else {
            return Ok(true);
        };
        let gives = self.at(*list).tail(alloc)?;
        self.lower_to(alloc, value, gives)
    }

    fn element(&mut self, alloc: Global, value: Slot, args: &[Slot]) -> Result<bool, Memory>
        ensures value { IfOk result (λ alive. transferred transfer.Element value args.now self.old.types ≡ answer alive self.new.types) }
        ensures trailed { IfOk result (λ _. Trailed self.old self.new) }
    {
        let [position, tuple, ..] = args else {
            return Ok(true);
        };
        let gives = selected_type(alloc, self.at(*position), self.at(*tuple))?;
        self.lower_to(alloc, value, gives)
    }

    fn test(&mut self, alloc: Global, ty: &Ty, value: Slot, args: &[Slot]) -> Result<bool, Memory>
        ensures value { IfOk result (λ alive. transferred (transfer.Test ty.now) value args.now self.old.types ≡ answer alive self.new.types) }
        ensures trailed { IfOk result (λ _. Trailed self.old self.new) }
    {
        let [arg, ..] = args else {
            return Ok(true);
        };
        let gives = tested_type(alloc, ty, self.at(*arg))?;
        let alive = self.lower_to(alloc, value, gives)?;
        if !alive {
            return Ok(false);
        }
        self.lower_where_true(alloc, value, *arg, ty)
    }

    fn test_some(
        &mut self,
        alloc: Global,
        ty: &Ty,
        value: Slot,
        args: &[Slot],
    ) -> Result<bool, Memory>
        ensures value { IfOk result (λ alive. transferred (transfer.TestSome ty.now) value args.now self.old.types ≡ answer alive self.new.types) }
        ensures trailed { IfOk result (λ _. Trailed self.old self.new) }
    {
        let [arg, ..] = args else {
            return Ok(true);
        };
        let gives = some_tested_type(alloc, ty, self.at(*arg))?;
        let alive = self.lower_to(alloc, value, gives)?;
        if !alive {
            return Ok(false);
        }
        self.lower_where_true(alloc, value, *arg, ty)
    }

    // Where the answer is below `true`, the argument with the type.
    fn lower_where_true(
        &mut self,
        alloc: Global,
        answered: Slot,
        arg: Slot,
        ty: &Ty,
    ) -> Result<bool, Memory>
        ensures value { IfOk result (λ alive. only_where (is_true answered) (meets arg (λ xs. ty.now)) self.old.types ≡ answer alive self.new.types) }
        ensures trailed { IfOk result (λ _. Trailed self.old self.new) }
    {
        let yes = self.says_true(alloc, answered)?;
        if !yes {
            return Ok(true);
        }
        self.lower(alloc, arg, ty)
    }

    fn same(&mut self, alloc: Global, value: Slot, args: &[Slot]) -> Result<bool, Memory>
        ensures value { IfOk result (λ alive. transferred transfer.Same value args.now self.old.types ≡ answer alive self.new.types) }
        ensures trailed { IfOk result (λ _. Trailed self.old self.new) }
    {
        let [one, other, ..] = args else {
            return Ok(true);
        };
        let gives = same_type(alloc, self.at(*one), self.at(*other))?;
        let alive = self.lower_to(alloc, value, gives)?;
        if !alive {
            return Ok(false);
        }
        let yes = self.says_true(alloc, value)?;
        if !yes {
            return Ok(true);
        }
        self.lower_both(alloc, *one, *other)
    }

    fn differ(&mut self, alloc: Global, value: Slot, args: &[Slot]) -> Result<bool, Memory>
        ensures value { IfOk result (λ alive. transferred transfer.Differ value args.now self.old.types ≡ answer alive self.new.types) }
        ensures trailed { IfOk result (λ _. Trailed self.old self.new) }
    {
        let [one, other, ..] = args else {
            return Ok(true);
        };
        let gives = other_type(alloc, self.at(*one), self.at(*other))?;
        let alive = self.lower_to(alloc, value, gives)?;
        if !alive {
            return Ok(false);
        }
        let no = self.says_false(alloc, value)?;
        if !no {
            return Ok(true);
        }
        self.lower_both(alloc, *one, *other)
    }
}
