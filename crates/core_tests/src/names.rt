//! Names of functions that are bound and left.
use crate::kept_names::{is_kept, is_kept_beside};
use core_ast::FunName;
use core_scope::Names;
use std::alloc::Global;
use std::process::Abort;
use type_kinds::{Atom, Memory};

fn function(alloc: Global, arity: u32) -> Result<FunName, Memory> {
    let name = Atom::new(alloc, b"f")?;
    Ok(FunName { name, arity })
}

// Binds the two, and the first again.
fn bind(names: &mut Names<FunName>, first: &FunName, second: &FunName) -> Result<(), Memory> {
    names.push(first)?;
    names.push(second)?;
    names.push(first)
}

// Expects which of two functions is there, when they are bound and left.
fn expect_bound(
    rt: &impl Abort,
    names: &mut Names<FunName>,
    first: &FunName,
    second: &FunName,
) -> Result<(), Memory> {
    assert!(rt; !is_kept(names, first), "nothing is bound");
    bind(names, first, second)?;
    assert!(rt; names.len() == 3, "each binding counts");
    assert!(rt;
        names.has_since(2, first) && !names.has_since(2, second),
        "only the last is behind two"
    );
    names.leave(1);
    assert!(rt;
        is_kept(names, first) && !is_kept(names, second),
        "the first stays"
    );
    let beside = is_kept_beside(names, second, second)?;
    assert!(rt;
        beside && !is_kept(names, second),
        "the second is there for a while"
    );
    names.leave(0);
    assert!(rt; !is_kept(names, first), "nothing is left");
    Ok(())
}

#[test]
fn a_name_is_bound_as_long_as_its_first_binding(rt: HostRuntime) -> Result<(), Memory> {
    let first = function(rt.alloc(), 1)?;
    let second = function(rt.alloc(), 2)?;
    let mut names = Names::new(rt.alloc());
    let bound = expect_bound(&rt, &mut names, &first, &second);
    drop(names);
    drop(first);
    drop(second);
    bound
}
