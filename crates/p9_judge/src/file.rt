// The types of a file.
ghost use Rattle.std.specs.Prelude.{◌≡◌, [], reverse, IfOk};
ghost use Rattle.p9_lang.specs.Files.{mark_tags, static_names, typing_in, typing_of};
ghost use Rattle.p9_lang.specs.Types.{tags_of};
ghost use Rattle.p9_scopes.specs.Seen.{level_of, tag_level_of};
ghost use Rattle.p9_scopes.specs.State.{known_of};
ghost use Rattle.p9_judge.specs.Answers.{Answers};

use crate::bodies::names_with_bodies;
use crate::marking::mark_tags;
use crate::naming::all_names;
use crate::statics::static_names;
use crate::walk::judge_items;
use p9_base::NoMemory;
use p9_declare::TypingFault;
use p9_lang::{Ident, Module, Tags, Tree};
use p9_scopes::{Finished, Known, NameLevel, TagLevel};
use sqlite_items::Items;
use std::alloc::Global;

fn marked(alloc: Global, marks: &[Ident], level: &TagLevel, tags: Tags) -> Result<Tags, NoMemory>
    ensures { IfOk result (λ marked. tags_of marked.list ≡ mark_tags marks.now (tag_level_of level.now) (tags_of tags.list)) }
{
    let names = all_names(alloc, marks)?;
    let tags = mark_tags(alloc, &names, level.as_slice(), tags)?;
    Ok(tags)
}

fn statics_of(alloc: Global, level: &NameLevel) -> Result<Items<Ident>, NoMemory>
    ensures { IfOk result (λ names. names ≡ static_names [] (reverse (level_of level.now))) }
{
    let names = static_names(alloc, level.as_slice())?;
    Ok(names.into_items())
}

// The module of a tree, whose items are judged.
fn module_of(alloc: Global, tree: Tree, known: Known) -> Result<Module, NoMemory>
    ensures tree { IfOk result (λ m. m.tree ≡ tree) }
    ensures typing { IfOk result (λ m. typing_in m ≡ typing_of tree.marks (known_of known)) }
{
    let Finished {
        types,
        binds,
        names,
        tag_names,
        tags,
    } = known.finish(alloc);
    let tags = marked(alloc, tree.marks.as_slice(), &tag_names, tags)?;
    let statics = statics_of(alloc, &names)?;
    Ok(Module {
        tree,
        tags,
        types,
        binds,
        statics,
    })
}

/// The module of a file's tree, or the first of its nodes, each after its parts, that breaks a rule,
/// with the least that it breaks.
pub fn type_file(alloc: Global, tree: Tree) -> Result<Module, TypingFault>
    ensures { Answers tree result }
{
    let bodies = names_with_bodies(alloc, tree.items.as_slice())?;
    let mut known = Known::new(alloc, bodies)?;
    match judge_items(&mut known, alloc, tree.items.as_slice()) {
        Ok(()) => {
            let module = module_of(alloc, tree, known)?;
            Ok(module)
        }
        Err(fault) => Err(fault),
    }
}
