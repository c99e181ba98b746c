// The symbols of file scope.
ghost use Rattle.std.specs.Prelude.{◌≡◌, ◌++◌, unwrap_or, IfOk, OnOk};
ghost use Rattle.p9_lang.specs.declared.module.Module.{Module};
ghost use Rattle.p9_lang.specs.Types.{type_of};
ghost use Rattle.p9_lang.specs.Scopes as scopes;
ghost use Rattle.p9_lang.specs.Symbols as definitions;
ghost use Rattle.p9_numbering.specs.Told.{told_form, told_symbol, symbols_told};
ghost use Rattle.p9_outline.specs.Held.{has_name};
ghost use Rattle.p9_outline.specs.Summaries.{used_kind, makes_symbol, symbol_by, symbols_by, outer_symbols};
ghost use Rattle.p9_outline.specs.Told.{told_first, told_known, names_told, known_told};

use crate::names::NameSet;
use crate::summary::{Known, Names};
use crate::system::system_type;
use p9_base::NoMemory;
use p9_lang::{CType, Ident};
use p9_numbering::{Form, OutlineSymbol, Title};
use p9_operand::copied;
use std::alloc::Global;

// What a name is, used or not.
fn used_form<'a>(form: Form<'a>, is_used: bool) -> Form<'a>
    ensures { (m : Module) → told_form m result ≡ used_kind is_used (told_form m form.entry) }
{
    match form {
        Form::DeclaredOnly => {
            if is_used {
                return Form::Used;
            }
            Form::DeclaredOnly
        }
        Form::Used | Form::Code(_) | Form::Initial { .. } | Form::Text { .. } | Form::Common => {
            form
        }
    }
}

fn has_no_body<'a>(form: Form<'a>) -> bool
    ensures { (m : Module) → result ≡ definitions.has_no_body (told_form m form.entry) }
{
    match form {
        Form::DeclaredOnly | Form::Used => true,
        Form::Code(_) | Form::Initial { .. } | Form::Text { .. } | Form::Common => false,
    }
}

// Whether a name is declared or used, and no function of the file alone that has no body.
fn is_symbol<'a>(known: Known<'a>, is_local: bool, is_used: bool) -> bool
    ensures { (m : Module) → result ≡ makes_symbol is_local is_used (told_known m known.entry) }
{
    if known.first.is_none() && !is_used {
        return false;
    }
    !is_local || !has_no_body(used_form(known.form, is_used))
}

fn type_of_name(alloc: Global, name: &[u8], first: Option<&CType>) -> Result<CType, NoMemory>
    ensures { IfOk result (λ t. type_of t ≡ unwrap_or (told_first first.entry) (scopes.system_type name.now)) }
{
    match first {
        Some(ty) => copied(alloc, ty),
        None => system_type(alloc, name),
    }
}

fn symbol_of<'a>(
    alloc: Global,
    name: &[u8],
    known: Known<'a>,
    is_local: bool,
    is_used: bool,
) -> Result<OutlineSymbol<'a>, NoMemory>
    ensures { IfOk result (λ s. (m : Module) → told_symbol m s ≡ symbol_by is_local is_used (name.now, told_known m known.entry)) }
{
    let list = Vec::from_slice(alloc, name)?;
    let ty = type_of_name(alloc, name, known.first)?;
    Ok(OutlineSymbol {
        title: Title::Outer(Ident { list }),
        is_local,
        ty,
        form: used_form(known.form, is_used),
    })
}

// Adds the symbol of a name, where it has one.
fn push_outer<'a>(
    alloc: Global,
    symbols: &mut Vec<OutlineSymbol<'a>>,
    name: &[u8],
    known: Known<'a>,
    is_local: bool,
    is_used: bool,
) -> Result<(), NoMemory>
    ensures { OnOk result ((m : Module) → symbols_told m symbols.new.items
        ≡ symbols_told m symbols.old.items ++ symbols_by is_local is_used (name.now, told_known m known.entry)) }
{
    if is_symbol(known, is_local, is_used) {
        symbols.push(symbol_of(alloc, name, known, is_local, is_used)?)?;
    }
    Ok(())
}

/// Adds the symbols of file scope.
pub(crate) fn push_outers<'a>(
    alloc: Global,
    symbols: &mut Vec<OutlineSymbol<'a>>,
    names: &Names<'a>,
    statics: &NameSet<'a>,
    used: &NameSet<'a>,
) -> Result<(), NoMemory>
    ensures { OnOk result ((m : Module) → symbols_told m symbols.new.items
        ≡ symbols_told m symbols.old.items
        ++ outer_symbols (has_name statics.now.set.keys) (has_name used.now.set.keys) (known_told m names.now.map.entries) (names_told names.now.map.entries)) }
{
    for at in 0..names.map.len() {
        if let Some((name, known)) = names.map.get_index(at) {
            push_outer(
                alloc,
                symbols,
                *name,
                *known,
                statics.has(*name),
                used.has(*name),
            )?;
        }
    }
    Ok(())
}
