// The symbols of a module.
ghost use Rattle.std.specs.Prelude.{◌≡◌, IfOk};
ghost use Rattle.p9_lang.specs.Modules.{source_of};
ghost use Rattle.p9_lang.specs.Symbols as definitions;
ghost use Rattle.p9_numbering.specs.Told.{symbols_told};

use crate::declared::declare_items;
use crate::locals::push_locals;
use crate::outers::push_outers;
use crate::statics::set_of;
use crate::summary::Names;
use crate::uses::names_used;
use p9_base::NoMemory;
use p9_nodes::{Source, items};
use p9_numbering::OutlineSymbol;
use std::alloc::Global;

/// The symbols of a module: what file scope declares or uses, then texts and the statics of blocks.
pub fn outline<'a>(
    alloc: Global,
    source: &'a Source<'a>,
) -> Result<Vec<OutlineSymbol<'a>>, NoMemory>
    ensures { IfOk result (λ o. symbols_told source.now.typed.now o.items
        ≡ definitions.symbols (source_of source.now.typed.now)) }
{
    let row = items(source);
    let statics = set_of(alloc, source.typed.statics.as_slice())?;
    let used = names_used(alloc, source, row)?;
    let mut names = Names::new(alloc)?;
    declare_items(&mut names, source, row)?;
    let mut symbols = Vec::new(alloc);
    push_outers(alloc, &mut symbols, &names, &statics, &used)?;
    push_locals(alloc, &mut symbols, source, row)?;
    Ok(symbols)
}
