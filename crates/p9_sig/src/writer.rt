// The text of a type, written from a list of tasks.
ghost use Rattle.std.specs.Prelude.{◌≡◌, ◌==◌, ◌+◌, ◌≤◌, ◌<◌, Some, Err, OnOk, IfOk, IsSomeAnd, length, codes};
ghost use Rattle.std.specs.Option.{option_copied};
ghost use Rattle.p9_lang.specs.Types.{type_of, body_of, tag_of, tags_of};
ghost use Rattle.p9_lang.specs.TagRules.{AreValid};
ghost use Rattle.p9_lang.specs.Agreement.{open_body};
ghost use Rattle.p9_sig.specs.Parts.{writes, ◌⨟◌};
ghost use Rattle.p9_sig.specs.Texts.{number_text, opening, closing, type_text, body_text, tag_text_by, signature_text, signature_limit};
ghost use Rattle.p9_sig.specs.TypesInRange.{IsOver};
ghost use Rattle.p9_sig.specs.Laws.{TellsType};
ghost use Rattle.p9_sig.specs.Writing.{task_text, parameters_text, rest_of_body, Puts, KeepsTask, TakesOn, CanWrite, TakesOnOver};

use crate::fault::SigFault;
use crate::met::MetTags;
use itoa::Buffer;
use p9_base::{Bytes, NoMemory};
use p9_lang::{CType, Ident, Member, Tag, Tags};
use std::alloc::Global;

// The bytes of the longest signature.
const LIMIT: usize = 65536;

// What is to be written later.
#[derive(Drop)]
enum Task<'a> {
    Type(&'a CType),
    // The end of a parameter, the others, and the result.
    Parameters(&'a [CType], &'a CType),
    // The end of a member, the others, and the end of the body, which may be a union's.
    Members(&'a [Member], bool),
}

// A text that is being written. It knows what is to be written in the end: its bytes, what it writes
// now, and its tasks from the last to the first.
#[derive(Drop)]
struct Writer<'a> {
    text: Vec<u8>,
    met: MetTags,
    tasks: Vec<Task<'a>>,
}

impl<'a> Writer<'a> {
    fn put(&mut self, text: &[u8]) -> Result<(), NoMemory>
        ensures then { OnOk result (Puts self.old self.new text.now) }
        ensures grows { OnOk result
            (length self.new.text.items ≡ length self.old.text.items + length text.now) }
    {
        self.text.extend_from_slice(text)?;
        Ok(())
    }

    fn put_name(&mut self, name: &Ident) -> Result<(), NoMemory>
        ensures then { OnOk result (Puts self.old self.new name.now) }
        ensures grows { OnOk result (length self.old.text.items ≤ length self.new.text.items) }
    {
        self.put(name.list.as_slice())?;
        Ok(())
    }

    fn put_number(&mut self, n: u32) -> Result<(), NoMemory>
        ensures then { OnOk result (Puts self.old self.new (number_text n)) }
        ensures grows { OnOk result (length self.old.text.items ≤ length self.new.text.items) }
    {
        let mut buffer = Buffer::new();
        let digits = buffer.format(n);
        self.put(digits.as_bytes())?;
        Ok(())
    }

    fn keep(&mut self, task: Task<'a>) -> Result<(), NoMemory>
        ensures then { OnOk result (KeepsTask self.old self.new task.entry) }
        ensures same_text { OnOk result (length self.new.text.items ≡ length self.old.text.items) }
    {
        self.tasks.push(task)?;
        Ok(())
    }

    // The next parameter, or the result behind the last.
    fn write_parameters(
        &mut self,
        parameters: &'a [CType],
        result_type: &'a CType,
    ) -> Result<(), NoMemory>
        ensures then { OnOk result (TakesOn self.old self.new (λ tag.
            parameters_text tag parameters.now result_type.now)) }
        ensures grows { OnOk result (length self.old.text.items ≤ length self.new.text.items) }
    {
        match parameters {
            [] => {
                self.put(b")")?;
                self.keep(Task::Type(result_type))?;
                Ok(())
            }
            [first, others @ ..] => {
                self.keep(Task::Parameters(others, result_type))?;
                self.keep(Task::Type(first))?;
                Ok(())
            }
        }
    }

    // The next member, or the end of the body behind the last.
    fn write_members(&mut self, members: &'a [Member], is_union: bool) -> Result<(), NoMemory>
        ensures then { OnOk result (TakesOn self.old self.new (λ tag.
            rest_of_body tag members.now is_union)) }
        ensures grows { OnOk result (length self.old.text.items ≤ length self.new.text.items) }
    {
        match members {
            [] => {
                self.put(closing(is_union))?;
                Ok(())
            }
            [member, others @ ..] => {
                self.put_name(&member.name)?;
                self.put(b":")?;
                self.keep(Task::Members(others, is_union))?;
                self.keep(Task::Type(&member.ty))?;
                Ok(())
            }
        }
    }

    // A structure or union whole, or its tag alone where its members don't count.
    fn write_body(&mut self, tag: &'a Tag) -> Result<(), NoMemory>
        ensures then { OnOk result (TakesOn self.old self.new (λ part.
            body_text part tag.now.is_union tag.now.name (open_body (tag_of tag.now)))) }
        ensures grows { OnOk result (length self.old.text.items < length self.new.text.items) }
    {
        match counted_members(tag) {
            None => {
                self.put(b"?")?;
                self.put(opening(tag.is_union))?;
                self.put_name(&tag.name)?;
                self.put(closing(tag.is_union))?;
                Ok(())
            }
            Some(members) => {
                self.put(opening(tag.is_union))?;
                self.put_name(&tag.name)?;
                self.put(b":")?;
                self.write_members(members, tag.is_union)?;
                Ok(())
            }
        }
    }

    // A tag that was met.
    fn write_again(&mut self, name: &Ident) -> Result<(), NoMemory>
        ensures then { OnOk result (TakesOn self.old self.new (λ tag.
            writes (codes "@") ⨟ writes name.now ⨟ writes (codes ";"))) }
        ensures grows { OnOk result (length self.old.text.items < length self.new.text.items) }
    {
        self.put(b"@")?;
        self.put_name(name)?;
        self.put(b";")?;
        Ok(())
    }

    fn write_tag(&mut self, alloc: Global, tag: &'a Tag) -> Result<(), NoMemory>
        ensures then { OnOk result (TakesOn self.old self.new (λ part.
            tag_text_by part (Some (tag_of tag.now)))) }
        ensures grows { OnOk result (length self.old.text.items < length self.new.text.items) }
    {
        if is_nameless(tag) {
            self.write_body(tag)?;
            return Ok(());
        }
        let first = self.met.meet(alloc, &tag.name)?;
        if first {
            self.write_body(tag)?;
            Ok(())
        } else {
            self.write_again(&tag.name)?;
            Ok(())
        }
    }

    fn write_type(&mut self, alloc: Global, ty: &'a CType, tags: &'a [Tag]) -> Result<(), NoMemory>
        requires { CanWrite (tags_of tags.now) self.old (λ tag. type_text tag (type_of ty.now)) }
        ensures then { OnOk result (TakesOnOver (tags_of tags.now) self.old self.new (λ tag.
            type_text tag (type_of ty.now))) }
        ensures grows { OnOk result (length self.old.text.items < length self.new.text.items) }
    {
        match ty {
            CType::Void => self.put(b"v"),
            CType::Char => self.put(b"c"),
            CType::UChar => self.put(b"C"),
            CType::Short => self.put(b"s"),
            CType::UShort => self.put(b"S"),
            CType::Int => self.put(b"i"),
            CType::UInt => self.put(b"I"),
            CType::Long => self.put(b"l"),
            CType::ULong => self.put(b"L"),
            CType::Pointer(target) => {
                self.put(b"*")?;
                self.keep(Task::Type(target.get()))?;
                Ok(())
            }
            CType::Array(element, count) => {
                self.put(b"[")?;
                self.put_number(*count)?;
                self.put(b"]")?;
                self.keep(Task::Type(element.get()))?;
                Ok(())
            }
            CType::Function(result_type, parameters) => {
                self.put(b"(")?;
                self.write_parameters(parameters.as_slice(), result_type.get())?;
                Ok(())
            }
            CType::Tagged(number) => {
                let tag = &tags[*number as usize];
                self.write_tag(alloc, tag)?;
                Ok(())
            }
        }
    }

    fn write_task(&mut self, alloc: Global, task: Task<'a>, tags: &'a [Tag]) -> Result<(), NoMemory>
        requires { CanWrite (tags_of tags.now) self.old (λ tag. task_text tag task) }
        ensures then { OnOk result (TakesOnOver (tags_of tags.now) self.old self.new (λ tag.
            task_text tag task.entry)) }
        ensures grows { OnOk result (length self.old.text.items < length self.new.text.items) }
    {
        match task {
            Task::Type(ty) => {
                self.write_type(alloc, ty, tags)?;
                Ok(())
            }
            Task::Parameters(others, result_type) => {
                self.put(b";")?;
                self.write_parameters(others, result_type)?;
                Ok(())
            }
            Task::Members(others, is_union) => {
                self.put(b";")?;
                self.write_members(others, is_union)?;
                Ok(())
            }
        }
    }
}

fn is_nameless(tag: &Tag) -> bool
    ensures { result ≡ (length tag.now.name == 0) }
{
    tag.name.list.is_empty()
}

// The members of a structure or union, where they count: it has a body and isn't marked.
fn counted_members<'a>(tag: &'a Tag) -> Option<&'a [Member]>
    ensures { body_of (option_copied result) ≡ open_body (tag_of tag.now) }
{
    if tag.marked {
        return None;
    }
    match &tag.members {
        Some(members) => Some(members.as_slice()),
        None => None,
    }
}

fn opening(is_union: bool) -> &'static [u8]
    ensures { result.now ≡ opening is_union }
{
    if is_union { b"<" } else { b"{" }
}

fn closing(is_union: bool) -> &'static [u8]
    ensures { result.now ≡ closing is_union }
{
    if is_union { b">" } else { b"}" }
}

/// The text of a type over these structures and unions.
pub fn signature(alloc: Global, ty: &CType, tags: &Tags) -> Result<Bytes, SigFault>
    requires valid { AreValid (tags_of tags.now.list) }
    requires over { IsOver (tags_of tags.now.list) (type_of ty.now) }
    ensures text { IfOk result (λ text.
        signature_text (tags_of tags.now.list) (type_of ty.now) ≡ Some text) }
    ensures tells { IfOk result (TellsType (tags_of tags.now.list) (type_of ty.now)) }
    ensures within { IfOk result (λ text. length text ≤ signature_limit) }
    ensures too_long { result ≡ Err SigFault.SignatureTooLong →
        IsSomeAnd (signature_text (tags_of tags.now.list) (type_of ty.now)) (λ text.
        signature_limit < length text) }
{
    let mut writer = Writer {
        text: Vec::new(alloc),
        met: MetTags::new(alloc),
        tasks: Vec::new(alloc),
    };
    writer.keep(Task::Type(ty))?;
    'write: while let Some(task) = writer.tasks.pop() {
        writer.write_task(alloc, task, tags.list.as_slice())?;
        if writer.text.len() > LIMIT {
            return Err(SigFault::SignatureTooLong);
        }
    }
    Ok(Bytes { list: writer.text })
}
