ghost use Rattle.std.specs.Prelude.{◌≡◌, ◌↔◌, ℕ, true, IsTrue, IfOk};
ghost use Rattle.type_lattice_model.specs.ValueShapes.{PlainBelow};
ghost use Rattle.type_lattice_model.specs.HasType.{has_flag, has_arity};
ghost use Rattle.type_lattice_model.specs.Parts.{without_nil};
ghost use Rattle.type_lattice_model.specs.Shapes.{Flag, no_function};
ghost use Rattle.type_kinds_sets.specs.Numbers as numbers;
ghost use Rattle.type_kinds_sets.specs.declared.bits.Bits.TheVariants.{No};
ghost use Rattle.type_lattice_model.specs.Operations.{plain_none, plain_all, plain_meet, plain_join, flags_meet, flags_join, functions_meet};
ghost use Rattle.type_lattice_model.specs.Operations.{functions_join, is_no_flag, no_flags, all_flags, is_no_function, is_no_plain, is_atoms};
ghost use Rattle.type_lattice_trees.specs.Plains.{flags_of, functions_of};

use std::alloc::Global;
use std::marker::Model;
use type_kinds::Memory;
use type_kinds_sets::{AtomSet, Bits, High, IntSet, Low};

/// The parts that are no or yes: of each of these a type has all values or none.
#[derive(Clone, Copy, Debug, PartialEq, Eq)]
pub struct FlagSet {
    pub float: bool,
    pub pid: bool,
    pub port: bool,
    pub reference: bool,
    pub nil: bool,
    pub map: bool,
}

impl FlagSet {
    /// The flags that are in both.
    pub fn meet(&self, other: &FlagSet) -> FlagSet
        ensures { flags_of result ≡ flags_meet (flags_of self.now) (flags_of other.now) }
    {
        FlagSet {
            float: self.float && other.float,
            pid: self.pid && other.pid,
            port: self.port && other.port,
            reference: self.reference && other.reference,
            nil: self.nil && other.nil,
            map: self.map && other.map,
        }
    }

    /// The flags that are in one or the other.
    pub fn join(&self, other: &FlagSet) -> FlagSet
        ensures { flags_of result ≡ flags_join (flags_of self.now) (flags_of other.now) }
    {
        FlagSet {
            float: self.float || other.float,
            pid: self.pid || other.pid,
            port: self.port || other.port,
            reference: self.reference || other.reference,
            nil: self.nil || other.nil,
            map: self.map || other.map,
        }
    }

    /// Whether each flag of this one is in the other.
    pub fn leq(&self, other: &FlagSet) -> bool
        ensures { IsTrue result ↔ ((k : Flag) → has_flag (flags_of self.now) k ≡ true → has_flag (flags_of other.now) k ≡ true) }
    {
        self.join(other) == *other
    }

    /// Whether every flag is there.
    pub fn is_all(&self) -> bool
        ensures { IsTrue result ↔ (flags_of self.now ≡ all_flags) }
    {
        self.float && self.pid && self.port && self.reference && self.nil && self.map
    }

    /// Whether there is no flag.
    pub fn is_none(&self) -> bool
        ensures { result ≡ is_no_flag (flags_of self.now) }
    {
        !(self.float || self.pid || self.port || self.reference || self.nil || self.map)
    }
}

/// Functions, told by how many arguments they take.
#[derive(Clone, Copy, Debug, PartialEq, Eq)]
pub enum FunSet {
    /// No function.
    Nothing,
    /// The functions of one arity.
    OfArity(u32),
    /// Every function.
    Every,
}

impl FunSet {
    /// The functions of both.
    pub fn meet(&self, other: &FunSet) -> FunSet
        ensures { functions_of result ≡ functions_meet (functions_of self.now) (functions_of other.now) }
    {
        match (self, other) {
            (FunSet::Nothing, _) | (_, FunSet::Nothing) => FunSet::Nothing,
            (FunSet::Every, _) => *other,
            (_, FunSet::Every) => *self,
            (FunSet::OfArity(one), FunSet::OfArity(two)) => {
                if one == two { *self } else { FunSet::Nothing }
            }
        }
    }

    /// The smallest set that contains both: every function for two arities.
    pub fn join(&self, other: &FunSet) -> FunSet
        ensures { functions_of result ≡ functions_join (functions_of self.now) (functions_of other.now) }
    {
        match (self, other) {
            (FunSet::Nothing, _) => *other,
            (_, FunSet::Nothing) => *self,
            (FunSet::Every, _) | (_, FunSet::Every) => FunSet::Every,
            (FunSet::OfArity(one), FunSet::OfArity(two)) => {
                if one == two { *self } else { FunSet::Every }
            }
        }
    }

    /// Whether each function of this one is in the other.
    pub fn leq(&self, other: &FunSet) -> bool
        ensures { IsTrue result ↔ ((n : ℕ) → has_arity (functions_of self.now) n ≡ true → has_arity (functions_of other.now) n ≡ true) }
    {
        match self {
            FunSet::Nothing => true,
            FunSet::OfArity(one) => match other {
                FunSet::Nothing => false,
                FunSet::OfArity(two) => one == two,
                FunSet::Every => true,
            },
            FunSet::Every => *other == FunSet::Every,
        }
    }

    /// Whether there is no function.
    pub fn is_none(&self) -> bool
        ensures { result ≡ is_no_function (functions_of self.now) }
    {
        matches!(self, FunSet::Nothing)
    }
}

/// The values of a type that hold no others.
#[derive(Drop)]
pub struct Plain {
    pub atoms: AtomSet,
    pub ints: IntSet,
    pub bits: Bits,
    pub flags: FlagSet,
    pub functions: FunSet,
}

impl Model for Plain {
    ghost use Rattle.type_lattice_model.specs.Shapes.{PlainParts};
    ghost use Rattle.type_lattice_trees.specs.Plains.{plain_code, flags_of, functions_of};

    ghost Value = { PlainParts };

    ghost coded = { plain_code };

    ghost view = { λ p. record { atoms = p.atoms; ints = p.ints; bits = p.bits; flags = flags_of p.flags; functions = functions_of p.functions } };
}

impl Plain {
    /// No value. Takes no memory.
    pub fn none() -> Plain
        ensures { result ≡ plain_none }
    {
        Plain {
            atoms: AtomSet::none(),
            ints: IntSet::none(),
            bits: Bits::No,
            flags: FlagSet {
                float: false,
                pid: false,
                port: false,
                reference: false,
                nil: false,
                map: false,
            },
            functions: FunSet::Nothing,
        }
    }

    /// Every value. Takes no memory.
    pub fn all() -> Plain
        ensures { result ≡ plain_all }
    {
        Plain {
            atoms: AtomSet::all(),
            ints: IntSet::range(Low::Min, High::Max),
            bits: Bits::Any,
            flags: FlagSet {
                float: true,
                pid: true,
                port: true,
                reference: true,
                nil: true,
                map: true,
            },
            functions: FunSet::Every,
        }
    }

    /// Whether there is no value but nil. Takes no memory.
    pub fn is_nil_at_most(&self) -> bool
        ensures { result ≡ is_no_plain (without_nil self.now) }
    {
        let flags = FlagSet {
            nil: false,
            ..self.flags
        };
        self.atoms.is_none()
            && self.ints.is_none()
            && self.bits == Bits::No
            && flags.is_none()
            && self.functions.is_none()
    }

    /// These atoms and nothing else. Takes no memory.
    pub fn of_atoms(atoms: AtomSet) -> Plain
        ensures { result ≡ record { atoms = atoms; ints = numbers.none; bits = No; flags = no_flags; functions = no_function } }
    {
        Plain {
            atoms,
            ..Plain::none()
        }
    }

    /// The values of both.
    pub fn meet(&self, alloc: Global, other: &Plain) -> Result<Plain, Memory>
        ensures { IfOk result (λ p. p ≡ plain_meet self.now other.now) }
    {
        Ok(Plain {
            atoms: self.atoms.meet(alloc, &other.atoms)?,
            ints: self.ints.meet(&other.ints),
            bits: self.bits.meet(&other.bits),
            flags: self.flags.meet(&other.flags),
            functions: self.functions.meet(&other.functions),
        })
    }

    /// The smallest that contains both.
    pub fn join(&self, alloc: Global, other: &Plain) -> Result<Plain, Memory>
        ensures { IfOk result (λ p. p ≡ plain_join self.now other.now) }
    {
        Ok(Plain {
            atoms: self.atoms.join(alloc, &other.atoms)?,
            ints: self.ints.join(&other.ints),
            bits: self.bits.join(&other.bits),
            flags: self.flags.join(&other.flags),
            functions: self.functions.join(&other.functions),
        })
    }

    /// A second one of the same values.
    pub fn copy(&self) -> Result<Plain, Memory>
        ensures { IfOk result (λ p. p ≡ self.now) }
    {
        Ok(Plain {
            atoms: self.atoms.copy()?,
            ints: self.ints.copy(),
            bits: self.bits,
            flags: self.flags,
            functions: self.functions,
        })
    }

    /// Whether there is no value but atoms. Takes no memory.
    pub fn is_atoms(&self) -> bool
        ensures { result ≡ is_atoms self.now }
    {
        self.ints.is_none()
            && self.bits == Bits::No
            && self.flags.is_none()
            && self.functions.is_none()
    }

    /// Whether each value of this one is in the other. Takes no memory.
    pub fn leq(&self, other: &Plain) -> bool
        ensures { IsTrue result ↔ PlainBelow self.now other.now }
    {
        self.atoms.leq(&other.atoms)
            && self.ints.leq(&other.ints)
            && self.bits.leq(&other.bits)
            && self.flags.leq(&other.flags)
            && self.functions.leq(&other.functions)
    }

    /// Whether every value is there. Takes no memory.
    pub fn is_all(&self) -> bool
        ensures { IsTrue result ↔ (self.now ≡ plain_all) }
    {
        self.atoms.members().is_none()
            && self.ints.ends() == Some((Low::Min, High::Max))
            && self.bits == Bits::Any
            && self.flags.is_all()
            && self.functions == FunSet::Every
    }

    /// Whether there is no value. Takes no memory.
    pub fn is_none(&self) -> bool
        ensures { result ≡ is_no_plain self.now }
    {
        self.atoms.is_none() && self.is_atoms()
    }
}
