ghost use Rattle.std.specs.Prelude.{◌≡◌};
ghost use Rattle.warn_list.specs.Order.{kind_number};

use core_ast::FunName;
use type_kinds::Atom;

/// A discrepancy that was found at a node of a module.
#[derive(Drop)]
pub struct Finding {
    /// The node's label.
    pub label: u32,
    pub kind: FindingKind,
    /// The line that the report names.
    pub line: u32,
}

/// What is wrong there, numbered from 1 in this order.
#[derive(Drop)]
pub enum FindingKind {
    /// The function, which the module defines, never gives a value.
    NoReturn(FunName),
    /// The call or apply never gives a value.
    DeadCall(CallText),
    /// The clause is never chosen.
    DeadClause,
    /// The function, which the module defines, is never entered.
    NeverCalled(FunName),
    /// The function of another module, which the module calls, is not known.
    UnknownFunction(Atom, FunName),
}

/// How a line names what is called.
#[derive(Drop)]
pub enum CallText {
    /// A function of the module itself, by its name alone.
    Local(FunName),
    /// A function by its module and name.
    Remote(Atom, FunName),
    /// A value, by the number of its arguments.
    Value(u32),
}

impl FindingKind {
    /// The number of the kind, from 1 to 5.
    pub fn number(&self) -> u8
        ensures { result ≡ kind_number self.now }
    {
        match self {
            FindingKind::NoReturn(_) => 1,
            FindingKind::DeadCall(_) => 2,
            FindingKind::DeadClause => 3,
            FindingKind::NeverCalled(_) => 4,
            FindingKind::UnknownFunction(_, _) => 5,
        }
    }
}
