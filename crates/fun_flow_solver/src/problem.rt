ghost use Rattle.std.specs.Prelude.{◌≡◌};
ghost use Rattle.fun_flow_solver.specs.Holds.{entered_of};

/// A place holds an item from the beginning. Places and items are numbers; item 0 is anything.
#[derive(Clone, Copy)]
pub struct Pair {
    pub place: u32,
    pub item: u32,
}

/// All that one place holds another one holds.
#[derive(Clone, Copy)]
pub struct Edge {
    pub from: u32,
    pub to: u32,
}

/// What the place `operator` holds is applied to `arity` arguments, and what comes of it is held by `place`.
#[derive(Clone, Copy)]
pub struct Application {
    pub operator: u32,
    pub arity: u32,
    pub place: u32,
}

/// What applying an item gives.
#[derive(Clone, Copy)]
pub enum Gives {
    Nothing,
    /// All that this place holds.
    Body(u32),
    /// Anything.
    Unknown,
}

/// What is known of an item: applied to `arity` arguments it gives this, and nothing with another number.
#[derive(Clone, Copy)]
pub struct Known {
    pub arity: u32,
    pub gives: Gives,
}

/// The rules: what places hold from the beginning, edges and applications; and what is known of each item.
#[derive(Drop)]
pub struct Problem {
    pub starts: Vec<Pair>,
    pub flows: Vec<Edge>,
    pub applications: Vec<Application>,
    pub items: Vec<Known>,
}

/// What applying an item to so many arguments gives. Item 0 gives anything, and an item of which nothing
/// is known gives nothing.
pub fn entered(items: &[Known], item: u32, arity: u32) -> Gives
    ensures { result ≡ entered_of items.now item arity }
{
    if item == 0 {
        return Gives::Unknown;
    }
    match items.get(item as usize) {
        None => Gives::Nothing,
        Some(known) => {
            if known.arity == arity {
                known.gives
            } else {
                Gives::Nothing
            }
        }
    }
}
