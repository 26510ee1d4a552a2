ghost use Rattle.std.specs.Prelude.{◌≡◌, ◌≤◌, IfOk, string_bytes};
ghost use Rattle.names.specs.Book.{texts as texts_of, limits as limits_of};
ghost use Rattle.console.specs.Answered.{AnswersAs};
ghost use Rattle.console.specs.Bodies.{parts_of};
ghost use Rattle.console.specs.Reader.{ReadsAs, answered};
ghost use Rattle.console.specs.Args.{left};
ghost use Rattle.console.specs.TemplateLines.{own_id as own_id_meant, OwnTemplate, body_and as body_and_meant, body_and_room as body_and_room_meant, body_and_values as body_and_values_meant, condition_line as condition_line_meant, ConditionRead, BindingRead};

// Lines that make a template and ask for its condition or its binding.
use crate::args::Args;
use crate::body::Body;
use crate::reader::Reader;
use crate::stop::Stop;
use clauses::book::ClauseBook;
use names::kept::NameBook;
use policy::node::ConditionNode;
use policy::template::Template;
use policy::values::SlotEnv;
use printing::nodes::nodes_line;
use refusals::NameNumber;
use refusals::refusal::Refusal;
use std::alloc::Global;

// No condition has more nodes.
const MOST_NODES: usize = 27;

// An id that the book has, for a template that stands in no set.
fn own_id(book: &mut NameBook) -> Result<NameNumber, Refusal>
    ensures id { answered result (texts_of book.new) ≡ own_id_meant (limits_of book.old) (texts_of book.old) }
    ensures limits { limits_of book.new ≡ limits_of book.old }
{
    if book.count() == 0 {
        return book.name(b"");
    }
    Ok(0)
}

// The nodes of a template's condition, in a buffer with so many places: `ok N NODE ...`
fn condition_line<B: ClauseBook>(
    heap: Global,
    book: &NameBook,
    clauses: &B,
    template: &Template,
    room: usize,
) -> Result<String, Stop>
    requires { room ≤ 27 }
    ensures { AnswersAs string_bytes result (condition_line_meant (texts_of book.now) (B.ClauseBook.listed clauses.now) template.now room) }
{
    let mut buffer = [ConditionNode::And; MOST_NODES];
    let count = template.condition(book, clauses, &mut buffer[..room])?;
    Ok(nodes_line(heap, book, &buffer[..count])?)
}

impl Reader {
    // The template of a body, in no set.
    fn own_template<B: ClauseBook>(&mut self, body: &Body, clauses: &B) -> Result<Template, Stop>
        ensures template { OwnTemplate (limits_of self.old.book) (texts_of self.old.book) (B.ClauseBook.listed clauses.now) (parts_of body.now) result (texts_of self.new.book) }
        ensures limits { limits_of self.new.book ≡ limits_of self.old.book }
    {
        let id = own_id(&mut self.book)?;
        Ok(body.template(id, &self.book, clauses)?)
    }

    // BODY [ROOM]
    fn body_and_room(&mut self, args: &mut Args) -> Result<(Body, usize), Stop>
        ensures both { ReadsAs body_and_meant result (texts_of self.new.book) (body_and_room_meant (limits_of self.old.book) (texts_of self.old.book) (left args.old)) }
        ensures limits { limits_of self.new.book ≡ limits_of self.old.book }
        ensures most { IfOk result (λ both. both.1 ≤ 27) }
    {
        let body = Body::read(self, args)?;
        let room = args.room(MOST_NODES as u32)?;
        Ok((body, room))
    }

    // BODY PV RV, to the end of the line
    fn body_and_values(&mut self, args: &mut Args) -> Result<(Body, SlotEnv), Stop>
        ensures both { ReadsAs body_and_meant result (texts_of self.new.book) (body_and_values_meant (limits_of self.old.book) (texts_of self.old.book) (left args.old)) }
        ensures limits { limits_of self.new.book ≡ limits_of self.old.book }
    {
        let body = Body::read(self, args)?;
        let values = self.values(args)?;
        args.end()?;
        Ok((body, values))
    }

    // `condition BODY [ROOM]`: `ok N NODE ...`
    pub(crate) fn condition<B: ClauseBook>(
        &mut self,
        args: &mut Args,
        clauses: &B,
    ) -> Result<String, Stop>
        ensures line { ConditionRead (limits_of self.old.book) (texts_of self.old.book) (B.ClauseBook.listed clauses.now) (left args.old) result (texts_of self.new.book) }
        ensures limits { limits_of self.new.book ≡ limits_of self.old.book }
    {
        let (body, room) = self.body_and_room(args)?;
        let template = self.own_template(&body, clauses)?;
        condition_line(self.heap, &self.book, clauses, &template, room)
    }

    // `binding BODY PV RV`: `ok`
    pub(crate) fn binding<B: ClauseBook>(
        &mut self,
        args: &mut Args,
        clauses: &B,
    ) -> Result<String, Stop>
        ensures line { BindingRead (limits_of self.old.book) (texts_of self.old.book) (B.ClauseBook.listed clauses.now) (left args.old) result (texts_of self.new.book) }
        ensures limits { limits_of self.new.book ≡ limits_of self.old.book }
    {
        let (body, values) = self.body_and_values(args)?;
        let template = self.own_template(&body, clauses)?;
        template.check_binding(values, &self.book, clauses)?;
        Ok(String::from_str(self.heap, "ok")?)
    }
}
