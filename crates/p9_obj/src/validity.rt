// Whether a module is valid.
ghost use Rattle.std.specs.Prelude.{◌↔◌, ◌<◌, ◌^◌, IsTrue, IfOk, All, length};
ghost use Rattle.p9_abs.specs.Validity.{IsValid};
ghost use Rattle.p9_obj.specs.Rules.{IsSymbol};

use crate::data::{has_size_in_range, has_well_pieced};
use crate::distinct::are_distinct;
use crate::functions::has_function;
use crate::numbers::names_within;
use crate::spelling::{is_bound_well, is_name, is_signature};
use p9_abs::{AModule, Symbol};
use p9_base::NoMemory;
use std::alloc::Global;

// Whether one of so many symbols keeps the rules on a symbol by itself.
fn is_symbol(count: usize, symbol: &Symbol) -> bool
    ensures { IsTrue result ↔ IsSymbol count symbol.now }
{
    is_name(&symbol.name.list)
        && is_bound_well(symbol)
        && is_signature(&symbol.sig.list)
        && names_within(count, &symbol.body)
        && has_size_in_range(&symbol.body)
        && has_well_pieced(&symbol.body)
        && has_function(&symbol.body)
}

// Whether each symbol keeps those rules.
fn are_symbols(m: &AModule) -> bool
    ensures { IsTrue result ↔ All (IsSymbol (length m.now.symbols)) m.now.symbols }
{
    let count = m.symbols.list.len();
    m.symbols.list.iter().all(|s| is_symbol(count, s))
}

fn is_numbered(m: &AModule) -> bool
    ensures { IsTrue result ↔ (length m.now.symbols < 2 ^ 32) }
{
    m.symbols.list.len() < 0x1_0000_0000
}

/// Whether the module is valid. It takes memory for the names, to tell whether they are distinct.

pub fn valid(alloc: Global, m: &AModule) -> Result<bool, NoMemory>
    ensures { IfOk result (λ valid. IsTrue valid ↔ IsValid m.now) }
{
    if are_symbols(m) {
        are_distinct(alloc, &m.symbols.list)
    } else {
        Ok(false)
    }
}

/// Whether each of the modules is valid.
pub fn all_valid(alloc: Global, modules: &Vec<AModule>) -> Result<bool, NoMemory>
    ensures { IfOk result (λ valid. IsTrue valid ↔ All IsValid modules.now.items) }
{
    let mut rest = modules.as_slice();
    while let [first, after @ ..] = rest {
        if !valid(alloc, first)? {
            return Ok(false);
        }
        rest = after;
    }
    Ok(true)
}

/// Whether each of the modules has so few symbols that 32 bits number them.
pub fn all_numbered(modules: &Vec<AModule>) -> bool
    ensures { IsTrue result ↔ All (λ m. length m.symbols < 2 ^ 32) modules.now.items }
{
    modules.iter().all(is_numbered)
}
