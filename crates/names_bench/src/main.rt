//! How quickly names resolve: it builds 256 modules that define 100,000 names, tests that they are
//! valid, and joins them, once for the program's name on its command line and once for each word
//! behind it.
#![tactic(auto)]

ghost use Rattle.std.specs.Prelude.{◌<◌, ◌^◌, All, length};
ghost use Rattle.p9_abs.specs.Validity.{IsValid};

mod build;

use crate::build::modules;
use p9_abs::AModule;
use p9_names::resolve;
use p9_obj::{all_numbered, all_valid};
use std::alloc::Global;
use std::{env, io};

// Joins the modules, and prints how many names they define.
fn join(rt: &impl Print, alloc: Global, modules: &Vec<AModule>) -> io::Result<()>
    requires valid { All IsValid modules.now.items }
    requires count { length modules.now.items < 2 ^ 32 }
    requires small { All (λ m. length m.symbols < 2 ^ 32) modules.now.items }
{
    match resolve(alloc, modules) {
        Ok(table) => {
            let count = table.defs.len();
            println!(rt; "{count} names")
        }
        Err(fault) => println!(rt; "{fault}"),
    }
}

fn main(rt: HostRuntime) -> io::Result<()> {
    let alloc = rt.alloc();
    let Ok(modules) = modules(alloc) else {
        return println!(rt; "no memory");
    };
    let Ok(words) = env::args(&rt) else {
        return println!(rt; "no memory");
    };
    let Ok(valid) = all_valid(alloc, &modules) else {
        return println!(rt; "no memory");
    };
    if !valid {
        return println!(rt; "not valid");
    }
    if !all_numbered(&modules) || modules.len() > 1000 {
        return println!(rt; "too many symbols");
    }
    for _ in words {
        join(&rt, alloc, &modules)?;
    }
    Ok(())
}
