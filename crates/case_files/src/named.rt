use std::alloc::Global;
use std::env::Env;
use std::rt::Files;
use std::{env, fs};
use type_kinds::{List, Memory};

/// The texts of the files that the words of the program name, or `Memory`, also where one can't be read.
pub fn named_texts<R: Files + Env + Alloc<A = Global>>(rt: &R) -> Result<List<String>, Memory> {
    let Ok(mut names) = env::args(rt) else {
        return Err(Memory);
    };
    let _program = names.next();
    let mut texts = List::new(rt.alloc());
    for name in names {
        match fs::read_to_string(rt, name.as_str()) {
            Ok(text) => texts.add(text)?,
            Err(_) => return Err(Memory),
        }
    }
    Ok(texts)
}
