// Heads of declarations.
ghost use Rattle.std.specs.Prelude.{◌≡◌, ◌&&◌, ◌++◌, ◌∷◌, [], Some, true, IfOk};
ghost use Rattle.p9_grammar.specs.Machine as machine;
ghost use Rattle.p9_grammar.specs.declared.head.Head.TheVariants as head;
ghost use Rattle.p9_lang.specs.declared.tree.SpecWord.TheVariants as word;
ghost use Rattle.p9_grammar.specs.Scopes.{is_type};
ghost use Rattle.p9_grammar.specs.Grammar.{Whole};
ghost use Rattle.p9_tree_moves.specs.Moves.{move_of, may_stand};

use crate::Move;
use crate::words::{WordShare, has_type, may_stand, pushed, share};
use p9_grammar::{Context, Head, Keyword, Punctuator, Terminal};
use p9_lang::{Ident, Kind, Spec, SpecWord};
use p9_tree_build::Scope;
use sqlite_items::Items;
use std::alloc::{AllocError, Global};

fn allows_storage(context: Context) -> bool
    ensures { result ≡ machine.allows_storage context }
{
    match context {
        Context::File | Context::Head | Context::Local => true,
        Context::Member | Context::Param | Context::Type => false,
    }
}

fn behind(alloc: Global, context: Context, words: Items<SpecWord>, token: &Terminal) -> Move
    ensures { move_of result ≡ machine.behind context words token.now }
{
    let spec = Spec { words };
    match context {
        Context::File | Context::Head | Context::Local => match token {
            Terminal::Mark(Punctuator::Semicolon) => Move::Ends(Kind::Declaration {
                spec,
                inits: Items::new(alloc),
            }),
            _ => Move::Opens(Head::Declarators(context, spec.words, Items::new(alloc))),
        },
        Context::Member => match token {
            Terminal::Mark(Punctuator::Semicolon) => Move::Ends(Kind::Member { spec }),
            _ => Move::Opens(Head::MemberDeclarators(spec.words)),
        },
        Context::Param => match token {
            Terminal::Mark(Punctuator::Comma | Punctuator::CloseParen) => {
                Move::Over(Kind::Param { spec })
            }
            _ => Move::Opens(Head::ParamOf(spec.words)),
        },
        Context::Type => match token {
            Terminal::Mark(Punctuator::CloseParen) => Move::Over(Kind::NamedType { spec }),
            _ => Move::Opens(Head::TypeOf(spec.words)),
        },
    }
}

fn ends_spec(alloc: Global, context: Context, words: Items<SpecWord>, token: &Terminal) -> Move
    ensures { move_of result ≡ machine.ends_spec context words token.now }
{
    if has_type(words.as_slice()) {
        behind(alloc, context, words, token)
    } else {
        Move::Refused
    }
}

fn word_move(context: Context, words: Items<SpecWord>, word: SpecWord) -> Result<Move, AllocError>
    ensures { IfOk result (λ m. move_of m ≡ machine.word_move context words word) }
{
    if may_stand(allows_storage(context), words.as_slice(), share(&word)) {
        Ok(Move::Shift(Head::Spec(context, pushed(words, word)?)))
    } else {
        Ok(Move::Refused)
    }
}

fn tag_key_move(context: Context, words: Items<SpecWord>, is_union: bool) -> Move
    ensures { move_of result ≡ machine.shift_if (may_stand (machine.allows_storage context) words Whole) (head.TagStart context words is_union) machine.Refused }
{
    if may_stand(allows_storage(context), words.as_slice(), WordShare::Whole) {
        Move::Shift(Head::TagStart(context, words, is_union))
    } else {
        Move::Refused
    }
}

fn enum_key_move(context: Context, words: Items<SpecWord>) -> Move
    ensures { move_of result ≡ machine.shift_if (may_stand (machine.allows_storage context) words Whole) (head.EnumStart context words) machine.Refused }
{
    if may_stand(allows_storage(context), words.as_slice(), WordShare::Whole) {
        Move::Shift(Head::EnumStart(context, words))
    } else {
        Move::Refused
    }
}

fn no_name(alloc: Global) -> Ident
    ensures { result ≡ [] }
{
    Ident {
        list: Vec::new(alloc),
    }
}

fn key_move(
    alloc: Global,
    context: Context,
    words: Items<SpecWord>,
    key: Keyword,
) -> Result<Move, AllocError>
    ensures { IfOk result (λ m. move_of m ≡ machine.key_move context words key) }
{
    match key {
        Keyword::Extern => word_move(context, words, SpecWord::Extern),
        Keyword::Static => word_move(context, words, SpecWord::Static),
        Keyword::Typedef => word_move(context, words, SpecWord::Typedef),
        Keyword::Auto => word_move(context, words, SpecWord::Auto),
        Keyword::Register => word_move(context, words, SpecWord::Register),
        Keyword::Const => word_move(context, words, SpecWord::Const),
        Keyword::Volatile => word_move(context, words, SpecWord::Volatile),
        Keyword::Void => word_move(context, words, SpecWord::Void),
        Keyword::Char => word_move(context, words, SpecWord::Char),
        Keyword::Short => word_move(context, words, SpecWord::Short),
        Keyword::Int => word_move(context, words, SpecWord::Int),
        Keyword::Long => word_move(context, words, SpecWord::Long),
        Keyword::Signed => word_move(context, words, SpecWord::Signed),
        Keyword::Unsigned => word_move(context, words, SpecWord::Unsigned),
        Keyword::Struct => Ok(tag_key_move(context, words, false)),
        Keyword::Union => Ok(tag_key_move(context, words, true)),
        Keyword::Enum => Ok(enum_key_move(context, words)),
        _ => Ok(ends_spec(alloc, context, words, &Terminal::Key(key))),
    }
}

fn is_type_word(scope: &Scope, context: Context, words: &[SpecWord], name: &[u8]) -> bool
    ensures { result ≡ (is_type scope.now.levels name.now && may_stand (machine.allows_storage context) words.now Whole) }
{
    match scope.is_type(name) {
        true => may_stand(allows_storage(context), words, WordShare::Whole),
        false => false,
    }
}

fn name_move(
    alloc: Global,
    scope: &Scope,
    context: Context,
    words: Items<SpecWord>,
    name: &Ident,
    token: &Terminal,
) -> Result<Move, AllocError>
    ensures { IfOk result (λ m. move_of m ≡ machine.shift_if (is_type scope.now.levels name.now && may_stand (machine.allows_storage context) words Whole) (head.Spec context (words ++ word.TypeName name.now ∷ [])) (machine.ends_spec context words token.now)) }
{
    if is_type_word(scope, context, words.as_slice(), name.list.as_slice()) {
        let word = SpecWord::TypeName(name.copied(alloc)?);
        Ok(Move::Shift(Head::Spec(context, pushed(words, word)?)))
    } else {
        Ok(ends_spec(alloc, context, words, token))
    }
}

/// What a head does with a token behind these words.
pub fn spec_move(
    alloc: Global,
    scope: &Scope,
    context: Context,
    words: Items<SpecWord>,
    token: &Terminal,
) -> Result<Move, AllocError>
    ensures { IfOk result (λ m. move_of m ≡ machine.spec_move scope.now.levels context words token.now) }
{
    match token {
        Terminal::Key(key) => key_move(alloc, context, words, *key),
        Terminal::Name(name) => name_move(alloc, scope, context, words, name, token),
        _ => Ok(ends_spec(alloc, context, words, token)),
    }
}

/// Behind `struct` or `union`.
#[tactic(auto, using(crate::proofs::Braces::tag_with_name, crate::proofs::Braces::tag_without))]
pub fn tag_start(
    alloc: Global,
    context: Context,
    words: Items<SpecWord>,
    is_union: bool,
    token: &Terminal,
) -> Result<Move, AllocError>
    ensures { IfOk result (λ m. move_of m ≡ machine.tag_start context words is_union token.now) }
{
    match token {
        Terminal::Name(name) => {
            if name.list.is_empty() {
                return Ok(Move::Refused);
            }
            let name = name.copied(alloc)?;
            Ok(Move::Shift(Head::TagNamed(context, words, is_union, name)))
        }
        Terminal::Mark(Punctuator::OpenBrace) => Ok(Move::Shift(Head::Members(
            context,
            words,
            is_union,
            no_name(alloc),
            0,
        ))),
        _ => Ok(Move::Refused),
    }
}

/// Behind `enum`.
#[tactic(auto, using(crate::proofs::Braces::enum_with_name, crate::proofs::Braces::enum_without))]
pub fn enum_start(
    alloc: Global,
    context: Context,
    words: Items<SpecWord>,
    token: &Terminal,
) -> Result<Move, AllocError>
    ensures { IfOk result (λ m. move_of m ≡ machine.enum_start context words token.now) }
{
    match token {
        Terminal::Name(name) => {
            if name.list.is_empty() {
                return Ok(Move::Refused);
            }
            let name = name.copied(alloc)?;
            Ok(Move::Shift(Head::EnumNamed(context, words, name)))
        }
        Terminal::Mark(Punctuator::OpenBrace) => Ok(Move::Shift(Head::Constants(
            context,
            words,
            no_name(alloc),
            0,
        ))),
        _ => Ok(Move::Refused),
    }
}

/// Behind a tag's name.
pub fn tag_move(
    alloc: Global,
    scope: &Scope,
    context: Context,
    words: Items<SpecWord>,
    is_union: bool,
    name: Ident,
    token: &Terminal,
) -> Result<Move, AllocError>
    ensures { IfOk result (λ m. move_of m ≡ machine.tag_move scope.now.levels context words is_union name token.now) }
{
    match token {
        Terminal::Mark(Punctuator::OpenBrace) => Ok(Move::Shift(Head::Members(
            context, words, is_union, name, 0,
        ))),
        _ => {
            let word = SpecWord::Tag {
                is_union,
                name,
                members: None,
            };
            spec_move(alloc, scope, context, pushed(words, word)?, token)
        }
    }
}

/// Behind an enumeration's name.
pub fn enum_move(
    alloc: Global,
    scope: &Scope,
    context: Context,
    words: Items<SpecWord>,
    name: Ident,
    token: &Terminal,
) -> Result<Move, AllocError>
    ensures { IfOk result (λ m. move_of m ≡ machine.enum_move scope.now.levels context words name token.now) }
{
    match token {
        Terminal::Mark(Punctuator::OpenBrace) => Ok(Move::Shift(Head::Constants(
            context, words, name, 0,
        ))),
        _ => {
            let word = SpecWord::Enum {
                name,
                consts: None,
                comma: false,
            };
            spec_move(alloc, scope, context, pushed(words, word)?, token)
        }
    }
}

/// Behind so many members.
#[tactic(auto, using(crate::proofs::Braces::some_members))]
pub fn members_move(
    context: Context,
    words: Items<SpecWord>,
    is_union: bool,
    name: Ident,
    count: u32,
    token: &Terminal,
) -> Result<Move, AllocError>
    ensures { IfOk result (λ m. move_of m ≡ machine.members_move context words is_union name count token.now) }
{
    if count == 0 {
        return Ok(Move::Opens(Head::Members(context, words, is_union, name, 0)));
    }
    match token {
        Terminal::Mark(Punctuator::CloseBrace) => {
            let word = SpecWord::Tag {
                is_union,
                name,
                members: Some(count),
            };
            Ok(Move::Shift(Head::Spec(context, pushed(words, word)?)))
        }
        _ => Ok(Move::Opens(Head::Members(context, words, is_union, name, count))),
    }
}

fn end_constants(
    context: Context,
    words: Items<SpecWord>,
    name: Ident,
    count: u32,
    comma: bool,
) -> Result<Head, AllocError>
    ensures { IfOk result (λ h. h ≡ head.Spec context (words ++ word.Enum name (Some count) comma ∷ [])) }
{
    let word = SpecWord::Enum {
        name,
        consts: Some(count),
        comma,
    };
    Ok(Head::Spec(context, pushed(words, word)?))
}

/// Behind so many constants.
pub fn constants_next(
    context: Context,
    words: Items<SpecWord>,
    name: Ident,
    count: u32,
    token: &Terminal,
) -> Result<Move, AllocError>
    ensures { IfOk result (λ m. move_of m ≡ machine.constants_next context words name count token.now) }
{
    match token {
        Terminal::Mark(Punctuator::Comma) => Ok(Move::Shift(Head::ConstantsComma(
            context, words, name, count,
        ))),
        Terminal::Mark(Punctuator::CloseBrace) => Ok(Move::Shift(end_constants(
            context, words, name, count, false,
        )?)),
        _ => Ok(Move::Refused),
    }
}

/// Behind a constant's comma.
pub fn constants_comma(
    context: Context,
    words: Items<SpecWord>,
    name: Ident,
    count: u32,
    token: &Terminal,
) -> Result<Move, AllocError>
    ensures { IfOk result (λ m. move_of m ≡ machine.brace_or (machine.Shift (head.Spec context (words ++ word.Enum name (Some count) true ∷ []))) (machine.Opens (head.ConstantsComma context words name count)) token.now) }
{
    match token {
        Terminal::Mark(Punctuator::CloseBrace) => Ok(Move::Shift(end_constants(
            context, words, name, count, true,
        )?)),
        _ => Ok(Move::Opens(Head::ConstantsComma(context, words, name, count))),
    }
}

/// Behind a constant's name.
pub fn constant_named(name: Ident, token: &Terminal) -> Move
    ensures { move_of result ≡ machine.constant_named name token.now }
{
    match token {
        Terminal::Mark(Punctuator::Equal) => Move::Shift(Head::ConstantOf(name)),
        Terminal::Mark(Punctuator::Comma | Punctuator::CloseBrace) => {
            Move::Over(Kind::EnumConst {
                name,
                valued: false,
            })
        }
        _ => Move::Refused,
    }
}
