//! The texts of generated modules.
use analysis_sources::{discard_sources, sources_of};
use core_make::{MOST_MODULES, make};
use std::test::Fail;

// None of as many texts as there may be is refused.
#[test]
fn accepts_each_text(rt: HostRuntime) -> Result<(), Fail> {
    let alloc = rt.alloc();
    let texts = make(alloc, MOST_MODULES)?;
    let count = match sources_of(alloc, texts.as_slice()) {
        Ok(sources) => {
            let count = sources.len();
            discard_sources(sources);
            count
        }
        Err(_) => 0,
    };
    assert_eq!(rt; count, 1000);
    Ok(())
}
