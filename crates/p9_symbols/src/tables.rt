// The addresses of what the symbols of each module stand for.
ghost use Rattle.std.specs.Prelude.{◌≡◌, ◌<◌, ◌+◌, ◌^◌, ◌++◌, All, IfOk, OnOk, length};
ghost use Rattle.p9_abs.specs.BuiltIn.{builtin_module, linked};
ghost use Rattle.p9_symbols.specs.Tables.{addresses_in, tables_from};
ghost use Rattle.p9_symbols.specs.Held.{address_held};

use crate::layout::Layout;
use p9_abs::{AModule, Def, Symbol};
use p9_base::NoMemory;
use p9_image::SymbolAddresses;
use std::alloc::Global;

// Of the symbols of one module.
fn addresses_in(
    alloc: Global,
    layout: &Layout,
    unit: u32,
    symbols: &[Symbol],
) -> Result<SymbolAddresses, NoMemory>
    requires { length symbols.now < 2 ^ 32 }
    ensures { IfOk result (λ a. a ≡ addresses_in (address_held layout.now) unit 0 symbols.now) }
{
    let mut list = Vec::new(alloc);
    let mut next: u32 = 0;
    let mut rest = symbols;
    while let [_, after @ ..] = rest {
        let def = Def {
            module: unit,
            symbol: next,
        };
        list.push(layout.address(def)?)?;
        next += 1;
        rest = after;
    }
    Ok(SymbolAddresses { list })
}

/// Of the symbols of the modules and of the last.
pub fn symbol_tables(
    alloc: Global,
    layout: &Layout,
    modules: &[AModule],
    last: &AModule,
) -> Result<Vec<SymbolAddresses>, NoMemory>
    requires count { length modules.now < 2 ^ 32 }
    requires small { All (λ m. length m.symbols < 2 ^ 32) modules.now }
    requires builtin { last.now ≡ builtin_module }
    ensures { IfOk result (λ tables. tables.items ≡ tables_from (address_held layout.now) 0 (linked modules.now)) }
{
    let mut tables = Vec::new(alloc);
    let mut unit: u32 = 0;
    let mut rest = modules;
    while let [module, after @ ..] = rest {
        tables.push(addresses_in(alloc, layout, unit, &module.symbols.list)?)?;
        unit += 1;
        rest = after;
    }
    tables.push(addresses_in(alloc, layout, unit, &last.symbols.list)?)?;
    Ok(tables)
}
