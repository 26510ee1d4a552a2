ghost use Rattle.std.specs.Prelude.{◌≡◌, OnOk};
ghost use Rattle.names.specs.Book.{texts as texts_of, limits as limits_of};
ghost use Rattle.console.specs.Bodies.{body as body_meant, parts_of};
ghost use Rattle.console.specs.Reader.{ReadsAs};
ghost use Rattle.console.specs.Args.{left, rest};
ghost use Rattle.console.specs.Templates.{MakesOf};

// The parts of a template as a line has them.
use crate::actions::{ActionWord, lent};
use crate::args::Args;
use crate::reader::{Reader, clause, effect};
use crate::stop::Stop;
use clauses::book::ClauseBook;
use names::kept::NameBook;
use policy::constraint::{Effect, PrincipalOrResourceConstraint};
use policy::template::Template;
use refusals::NameNumber;
use refusals::refusal::Refusal;

#[derive(Drop)]
pub struct Body {
    effect: Effect,
    principal: PrincipalOrResourceConstraint,
    action: ActionWord,
    resource: PrincipalOrResourceConstraint,
    clause: Option<u16>,
}

impl Body {
    // EFFECT P A R CLAUSE
    pub(crate) fn read(reader: &mut Reader, args: &mut Args) -> Result<Body, Stop>
        ensures body { ReadsAs parts_of result (texts_of reader.new.book) (body_meant (limits_of reader.old.book) (texts_of reader.old.book) (left args.old)) }
        ensures limits { limits_of reader.new.book ≡ limits_of reader.old.book }
        ensures rest { OnOk result (left args.new ≡ rest (rest (rest (rest (rest (left args.old)))))) }
    {
        let effect = effect(args.word()?)?;
        let principal = reader.scope(args.word()?)?;
        let action = reader.action(args.word()?)?;
        let resource = reader.scope(args.word()?)?;
        let clause = clause(args.word()?)?;
        Ok(Body {
            effect,
            principal,
            action,
            resource,
            clause,
        })
    }

    // The template of the line under an id.
    pub(crate) fn template<B: ClauseBook>(
        &self,
        id: NameNumber,
        book: &NameBook,
        clauses: &B,
    ) -> Result<Template, Refusal>
        ensures { MakesOf (texts_of book.now) (B.ClauseBook.listed clauses.now) id (parts_of self.now) result }
    {
        Template::new(
            id,
            self.effect,
            self.principal,
            lent(&self.action),
            self.resource,
            self.clause,
            book,
            clauses,
        )
    }
}
