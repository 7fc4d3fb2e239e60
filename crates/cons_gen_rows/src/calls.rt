//! What calls add, by what a pass knows of their functions.
ghost use Rattle.std.specs.Prelude.{◌≡◌, [], length, if◌then◌else◌, OnOk};
ghost use Rattle.bif_types.specs.Table.{looked_up};
ghost use Rattle.core_scope.specs.Asks.{is_raising};
ghost use Rattle.cons_tree.specs.Callees.{found};
ghost use Rattle.cons_gen_rows.specs.Passes.{applied_rows, built_in_rows, by_names, by_summary, called_rows, signature};
ghost use Rattle.cons_gen_rows.specs.Walking.{Adds, knowing};
ghost use Rattle.cons_gen_rows.specs.Words.{never};

use crate::generator::Generator;
use crate::passes::Surroundings;
use bif_types::{Bif, lookup, part};
use cons_tree::{Callee, Part, Sig, Slot, Summary};
use core_ast::FunName;
use core_scope::is_text;
use type_kinds::{Atom, List, Memory, Shared};
use type_lattice::Ty;

// The built-in function of this name with `count` arguments.
fn built_in(name: &Atom, count: usize) -> Option<Bif>
    ensures { result ≡ looked_up name.now count }
{
    match u32::try_from(count) {
        Ok(arity) => lookup(name, arity),
        Err(_) => None,
    }
}

// Whether a primop of this name never returns.
fn is_raising(name: &Atom) -> bool
    ensures { result ≡ is_raising name.now }
{
    is_text(name, b"match_fail") || is_text(name, b"raise") || is_text(name, b"raw_raise")
}

impl<'a> Surroundings<'a> {
    // The signature that the pass takes.
    fn signature(&self, summary: &'a Summary) -> &'a Sig
        ensures { result.now ≡ signature (knowing self.now) summary.now }
    {
        if self.pass.is_lenient() {
            summary.lenient.get()
        } else {
            summary.strict.get()
        }
    }
}

impl Generator {
    // Adds what the signature of a function says of a call.
    fn summary(
        &mut self,
        context: &Surroundings,
        home: &Atom,
        name: &FunName,
        summary: &Summary,
        value: Slot,
        args: &[Slot],
    ) -> Result<(), Memory>
        ensures { OnOk result (Adds self.old self.new 0 (by_summary (knowing context.now) home.now name.now summary.now value args.now)) }
    {
        if context.pass.is_own(home, name) {
            return Ok(());
        }
        let copy = context.signature(summary).copy(self.alloc)?;
        let sig = Shared::new(self.alloc, copy)?;
        let args = List::from_slice(self.alloc, args)?;
        self.add(Part::Call(value, args, sig))
    }

    /// Adds what the application of a function's name says.
    pub fn application(
        &mut self,
        context: &Surroundings,
        name: &FunName,
        value: Slot,
        args: &[Slot],
    ) -> Result<(), Memory>
        ensures { OnOk result (Adds self.old self.new 0
            (applied_rows (knowing context.now) context.now.home.now self.old.functions name.now (length args.now) value args.now)) }
    {
        if name.arity as usize != args.len() {
            return self.bound(value, Ty::none());
        }
        if self.functions.has(name) {
            return Ok(());
        }
        match context.known.find(context.home, name) {
            Callee::Known(summary) => self.summary(
                context,
                context.home,
                name,
                summary,
                value,
                args,
            ),
            Callee::Local(summary) => self.summary(
                context,
                context.home,
                name,
                summary,
                value,
                args,
            ),
            Callee::Undefined | Callee::Unknown => Ok(()),
        }
    }

    // Adds what the call of a built-in function says.
    fn built_in_call(
        &mut self,
        context: &Surroundings,
        bif: Option<Bif>,
        results: &[Slot],
        args: &[Slot],
    ) -> Result<(), Memory>
        ensures { OnOk result (Adds self.old self.new 0 (built_in_rows (knowing context.now) bif results.now args.now)) }
    {
        let Some(bif) = bif else {
            return Ok(());
        };
        let quiet = context.pass.is_lenient();
        if let [value] = results {
            let part = part(self.alloc, bif, *value, args, quiet)?;
            return self.add(part);
        }
        if quiet {
            return Ok(());
        }
        self.never(results)
    }

    // Adds what the call of a function by its module and its name says.
    fn outer_call(
        &mut self,
        context: &Surroundings,
        home: &Atom,
        name: &FunName,
        value: Slot,
        args: &[Slot],
    ) -> Result<(), Memory>
        ensures { OnOk result (Adds self.old self.new 0
            (by_names (knowing context.now) home.now name.now (found context.now.known.now home.now name.now) value args.now)) }
    {
        match context.known.find(home, name) {
            Callee::Known(summary) => self.summary(context, home, name, summary, value, args),
            Callee::Local(_) | Callee::Undefined => self.bound(value, Ty::none()),
            Callee::Unknown => Ok(()),
        }
    }

    /// Adds what a call by a literal module and name says. `Memory` for 2^32 arguments or more, too.
    pub fn call(
        &mut self,
        context: &Surroundings,
        home: &Atom,
        name: &Atom,
        results: &[Slot],
        args: &[Slot],
    ) -> Result<(), Memory>
        ensures { OnOk result (Adds self.old self.new 0 (called_rows (knowing context.now) home.now name.now (length args.now) results.now args.now)) }
    {
        if is_text(home, b"erlang") {
            return self.built_in_call(context, built_in(name, args.len()), results, args);
        }
        let Some(value) = results.first() else {
            return Ok(());
        };
        let Ok(arity) = u32::try_from(args.len()) else {
            return Err(Memory);
        };
        let name = FunName {
            name: name.copy(self.alloc)?,
            arity,
        };
        self.outer_call(context, home, &name, *value, args)
    }

    /// Adds what a primop says: one that never returns gives none of its results.
    pub fn primop(&mut self, name: &Atom, results: &[Slot]) -> Result<(), Memory>
        ensures { OnOk result (Adds self.old self.new 0 (if is_raising name.now then never results.now else [])) }
    {
        if is_raising(name) {
            return self.never(results);
        }
        Ok(())
    }
}
