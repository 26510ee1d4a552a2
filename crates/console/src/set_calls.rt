ghost use Rattle.std.specs.Prelude.{◌≡◌, OnOk};
ghost use Rattle.std.specs.Result.{result_ok};
ghost use Rattle.names.specs.Book.{texts as texts_of, limits as limits_of};
ghost use Rattle.calls.specs.Model.{told, answered, step};
ghost use Rattle.calls.specs.Meaning.{state_of};
ghost use Rattle.console.specs.Reader.{ReadsAs, ReadsInto};
ghost use Rattle.console.specs.Args.{left, rest};
ghost use Rattle.console.specs.SetCalls.{link as link_meant, merge as merge_meant, ChangeRead};
ghost use Rattle.console.specs.SetLines.{ChangeLine, SetLine};
ghost use Rattle.console.specs.SetWords.{change_word, set_word, renames as renames_meant};
ghost use Rattle.console.specs.Templates.{by_parts, id_and_body as id_and_body_meant, id_and_values as id_and_values_meant, policy_kind, TemplateRead, StaticRead, KindRead, PolicyRead};
ghost use Rattle.console.specs.declared.set_calls.PolicyKind.TheVariants.{Static as kind_static, Link as kind_link};

// Lines on sets: those that change a set are read into calls, which are made and answered.
use crate::args::Args;
use crate::body::Body;
use crate::reader::{Reader, side};
use crate::set_reads::Read;
use crate::stop::{Stop, Wrong};
use calls::answer::{Answer, Handed};
use calls::call::{Call, Side};
use calls::pairs::MOST;
use calls::sets::Sets;
use clauses::book::ClauseBook;
use names::kept::NameBook;
use policy::bound::Policy;
use policy::fixed::StaticPolicy;
use policy::template::Template;
use policy::values::SlotEnv;
use printing::answers::handed_line;
use refusals::NameNumber;

// The first word of a line that changes a set.
#[derive(Clone, Copy)]
pub enum Change {
    Template,
    Static,
    Add,
    Link,
    Unlink,
    RemoveStatic,
    RemoveTemplate,
    Merge,
}

// The first word of a line on a set.
#[derive(Clone, Copy)]
pub enum SetWord {
    Change(Change),
    Read(Read),
}

// The kind of a policy that is added with its template.
#[derive(Clone, Copy)]
pub enum PolicyKind {
    Static,
    Link,
}

impl PolicyKind {
    // The kind that a word names.
    fn of(word: &[u8]) -> Option<PolicyKind>
        ensures { result ≡ policy_kind word.now }
    {
        match word {
            b"static" => Some(PolicyKind::Static),
            b"link" => Some(PolicyKind::Link),
            _ => None,
        }
    }
}

impl Change {
    // How a line's first word changes a set; none where it changes none.
    fn of(head: &[u8]) -> Option<Change>
        ensures { result ≡ change_word head.now }
    {
        match head {
            b"template" => Some(Change::Template),
            b"static" => Some(Change::Static),
            b"add" => Some(Change::Add),
            b"link" => Some(Change::Link),
            b"unlink" => Some(Change::Unlink),
            b"remove_static" => Some(Change::RemoveStatic),
            b"remove_template" => Some(Change::RemoveTemplate),
            b"merge" => Some(Change::Merge),
            _ => None,
        }
    }
}

impl SetWord {
    // What a line's first word does with a set; none where it is no call on sets.
    pub(crate) fn of(head: &[u8]) -> Option<SetWord>
        ensures { result ≡ set_word head.now }
    {
        match Change::of(head) {
            Some(change) => Some(SetWord::Change(change)),
            None => Read::of(head).map(|read| SetWord::Read(read)),
        }
    }
}

// Makes one call, as a list of one.
fn make_call<B: ClauseBook>(
    sets: &mut Sets,
    names: &mut NameBook,
    clauses: &B,
    call: Call<'_>,
) -> Answer
    ensures answer { told result ≡ answered (limits_of names.old) B.ClauseBook.equal (B.ClauseBook.listed clauses.now) (state_of sets.old names.old) call.entry }
    ensures limits { limits_of names.new ≡ limits_of names.old }
    ensures after { state_of sets.new names.new ≡ step (limits_of names.old) B.ClauseBook.equal (B.ClauseBook.listed clauses.now) (state_of sets.old names.old) call.entry }
{
    let mut answers = [Ok(Handed::Nothing)];
    sets.run(names, clauses, &[call], &mut answers)?;
    answers[0]
}

impl Reader {
    // ID BODY, to the end of the line
    fn id_and_body(&mut self, args: &mut Args) -> Result<(NameNumber, Body), Stop>
        ensures both { ReadsAs by_parts result (texts_of self.new.book) (id_and_body_meant (limits_of self.old.book) (texts_of self.old.book) (left args.old)) }
        ensures limits { limits_of self.new.book ≡ limits_of self.old.book }
    {
        let id = self.id(args)?;
        let body = Body::read(self, args)?;
        args.end()?;
        Ok((id, body))
    }

    // ID PV RV
    fn id_and_values(&mut self, args: &mut Args) -> Result<(NameNumber, SlotEnv), Stop>
        ensures both { ReadsInto result (texts_of self.new.book) (id_and_values_meant (limits_of self.old.book) (texts_of self.old.book) (left args.old)) }
        ensures limits { limits_of self.new.book ≡ limits_of self.old.book }
        ensures rest { OnOk result (left args.new ≡ rest (rest (rest (left args.old)))) }
    {
        let id = self.id(args)?;
        Ok((id, self.values(args)?))
    }

    // ID BODY, to the end of the line: a static policy
    fn static_policy<B: ClauseBook>(
        &mut self,
        args: &mut Args,
        clauses: &B,
    ) -> Result<StaticPolicy, Stop>
        ensures policy { StaticRead (limits_of self.old.book) (texts_of self.old.book) (B.ClauseBook.listed clauses.now) (left args.old) result (texts_of self.new.book) }
        ensures limits { limits_of self.new.book ≡ limits_of self.old.book }
    {
        let template = self.template(args, clauses)?;
        Ok(StaticPolicy::new(template, &self.book, clauses)?)
    }

    // ID BODY, to the end of the line: a template
    fn template<B: ClauseBook>(&mut self, args: &mut Args, clauses: &B) -> Result<Template, Stop>
        ensures template { TemplateRead (limits_of self.old.book) (texts_of self.old.book) (B.ClauseBook.listed clauses.now) (left args.old) result (texts_of self.new.book) }
        ensures limits { limits_of self.new.book ≡ limits_of self.old.book }
    {
        let (id, body) = self.id_and_body(args)?;
        Ok(body.template(id, &self.book, clauses)?)
    }

    // ID BODY, to the end of the line: the policy that a static one is
    fn static_as_policy<B: ClauseBook>(
        &mut self,
        args: &mut Args,
        clauses: &B,
    ) -> Result<Policy, Stop>
        ensures policy { KindRead (limits_of self.old.book) (texts_of self.old.book) (B.ClauseBook.listed clauses.now) kind_static (left args.old) result (texts_of self.new.book) }
        ensures limits { limits_of self.new.book ≡ limits_of self.old.book }
    {
        let policy = self.static_policy(args, clauses)?;
        let (_, policy) = Template::link_static_policy(policy, &self.book, clauses)?;
        Ok(policy)
    }

    // ID PV RV TEMPLATEID BODY, to the end of the line: a link of the template
    fn link_with_template<B: ClauseBook>(
        &mut self,
        args: &mut Args,
        clauses: &B,
    ) -> Result<Policy, Stop>
        ensures policy { KindRead (limits_of self.old.book) (texts_of self.old.book) (B.ClauseBook.listed clauses.now) kind_link (left args.old) result (texts_of self.new.book) }
        ensures limits { limits_of self.new.book ≡ limits_of self.old.book }
    {
        let (id, values) = self.id_and_values(args)?;
        let template = self.template(args, clauses)?;
        Ok(template.link(id, values, &self.book, clauses)?)
    }

    // static ID BODY, or link ID PV RV TEMPLATEID BODY: a policy
    fn policy<B: ClauseBook>(&mut self, args: &mut Args, clauses: &B) -> Result<Policy, Stop>
        ensures policy { PolicyRead (limits_of self.old.book) (texts_of self.old.book) (B.ClauseBook.listed clauses.now) (left args.old) result (texts_of self.new.book) }
        ensures limits { limits_of self.new.book ≡ limits_of self.old.book }
    {
        match PolicyKind::of(args.word()?).ok_or(Wrong::BadKind)? {
            PolicyKind::Static => self.static_as_policy(args, clauses),
            PolicyKind::Link => self.link_with_template(args, clauses),
        }
    }

    // TEMPLATEID ID PV RV
    fn link(&mut self, side: Side, args: &mut Args) -> Result<Call<'static>, Stop>
        ensures call { ReadsInto result (texts_of self.new.book) (link_meant (limits_of self.old.book) (texts_of self.old.book) side (left args.old)) }
        ensures limits { limits_of self.new.book ≡ limits_of self.old.book }
    {
        let template = self.id(args)?;
        let (id, values) = self.id_and_values(args)?;
        args.end()?;
        Ok(Call::Link(side, template, id, values))
    }

    // The call of a line that changes a set.
    fn change<B: ClauseBook>(
        &mut self,
        change: Change,
        side: Side,
        args: &mut Args,
        clauses: &B,
    ) -> Result<Call<'static>, Stop>
        ensures call { ChangeRead (limits_of self.old.book) (texts_of self.old.book) (B.ClauseBook.listed clauses.now) change side (left args.old) result (texts_of self.new.book) }
        ensures limits { limits_of self.new.book ≡ limits_of self.old.book }
    {
        match change {
            Change::Template => Ok(Call::AddTemplate(side, self.template(args, clauses)?)),
            Change::Static => Ok(Call::AddStatic(side, self.static_policy(args, clauses)?)),
            Change::Add => Ok(Call::Add(side, self.policy(args, clauses)?)),
            Change::Link => self.link(side, args),
            Change::Unlink => Ok(Call::Unlink(side, self.last_id(args)?)),
            Change::RemoveStatic => Ok(Call::RemoveStatic(side, self.last_id(args)?)),
            Change::RemoveTemplate => Ok(Call::RemoveTemplate(side, self.last_id(args)?)),
            Change::Merge => Ok(merge(side, args)?),
        }
    }

    // Makes the call of a line that changes a set, and answers as it is printed.
    fn change_line<B: ClauseBook>(
        &mut self,
        change: Change,
        side: Side,
        args: &mut Args,
        sets: &mut Sets,
        clauses: &B,
    ) -> Result<String, Stop>
        ensures line { ChangeLine (limits_of self.old.book) B.ClauseBook.equal (B.ClauseBook.listed clauses.now) (state_of sets.old self.old.book) change side (left args.old) result (state_of sets.new self.new.book) }
        ensures limits { limits_of self.new.book ≡ limits_of self.old.book }
    {
        let call = self.change(change, side, args, clauses)?;
        let handed = make_call(sets, &mut self.book, clauses, call)?;
        Ok(handed_line(self.heap, &self.book, call, &handed)?)
    }

    // Answers a line on a set.
    pub(crate) fn set_line<B: ClauseBook>(
        &mut self,
        first: SetWord,
        side: Side,
        args: &mut Args,
        sets: &mut Sets,
        clauses: &B,
    ) -> Result<String, Stop>
        ensures line { SetLine (limits_of self.old.book) B.ClauseBook.equal (B.ClauseBook.listed clauses.now) (state_of sets.old self.old.book) first side (left args.old) result (state_of sets.new self.new.book) }
        ensures limits { limits_of self.new.book ≡ limits_of self.old.book }
    {
        match first {
            SetWord::Change(change) => self.change_line(change, side, args, sets, clauses),
            SetWord::Read(read) => self.read_set(read, side, args, sets.set(side), clauses),
        }
    }
}

// `rename` or `refuse`: whether a merge may rename
fn renames(word: &[u8]) -> Option<bool>
    ensures { result ≡ renames_meant word.now }
{
    match word {
        b"rename" => Some(true),
        b"refuse" => Some(false),
        _ => None,
    }
}

// FROM rename|refuse [ROOM], the other set merged into this one
fn merge(into: Side, args: &mut Args) -> Result<Call<'static>, Wrong>
    ensures { result_ok result ≡ merge_meant into (left args.old) }
{
    match (into, side(args.word()?)?) {
        (Side::A, Side::B) | (Side::B, Side::A) => (),
        _ => return Err(Wrong::SameSet),
    }
    let rename = renames(args.word()?).ok_or(Wrong::BadMerge)?;
    Ok(Call::Merge(into, rename, args.room(MOST as u32)?))
}
