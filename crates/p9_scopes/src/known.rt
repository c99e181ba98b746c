use crate::level::NameLevel;
use crate::names::Names;
use crate::pile::Pile;
use crate::tag_level::TagLevel;
use crate::tag_table::TagTable;
use p9_lang::{Bind, CType};
use sqlite_items::Items;

/// What is known while a file is typed.
#[derive(Drop)]
pub struct Known {
    pub(crate) types: Items<CType>,
    pub(crate) binds: Items<Bind>,
    pub(crate) names: Pile<NameLevel>,
    pub(crate) tag_names: Pile<TagLevel>,
    pub(crate) tags: TagTable,
    pub(crate) statics: u32,
    pub(crate) autos: u32,
    pub(crate) bodies: Names,
}
