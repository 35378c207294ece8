//! `Content`, what is found at a key.
ghost use Rattle.std.specs.Prelude.{◌≡◌, IfOk, true};
ghost use Rattle.tao_schema.specs.Schema.{types_of};
ghost use Rattle.sealed_item.specs.Decided.{IsContentFront, content_answer, content_decides, content_read, is_longer_content};

use list_prefix::{Prefix, Verdict};
use tao_base::{Answer, Object, OutOfMemory, Query};
use tao_schema::Schema;

/// What is found at a key: of an object's key the object, if there is one, and of a list's key its
/// first edges and its length.
#[derive(Drop)]
pub enum Content {
    Object(Option<Object>),
    List(Prefix),
}

impl Content {
    /// The same content once more. The one error is that there is no memory for the copy.
    pub fn try_clone(&self) -> Result<Content, OutOfMemory>
        ensures { IfOk result (λ copy. copy ≡ self.now) }
    {
        match self {
            Content::Object(object) => Ok(Content::Object(copy_of(object)?)),
            Content::List(prefix) => Ok(Content::List(prefix.try_clone()?)),
        }
    }

    /// The answer, where the content decides the query. Copies what the answer gives. The one error is
    /// that there is no memory for that.
    pub fn read(&self, schema: &Schema, query: &Query) -> Result<Option<Answer>, OutOfMemory>
        ensures { IfOk result (λ found. found ≡ content_read (types_of schema.now) self.now query.now) }
    {
        let bound = schema.bound_of(&query.key());
        match (self, query) {
            (Content::Object(object), Query::ObjGet { .. }) => {
                Ok(Some(Answer::Object(copy_of(object)?)))
            }
            (Content::Object(_), _) => Ok(None),
            (Content::List(_), Query::ObjGet { .. }) => Ok(None),
            (Content::List(prefix), _) => match prefix.read(query, bound)? {
                Verdict::Decided(answer) => Ok(Some(answer)),
                Verdict::Undecided => Ok(None),
            },
        }
    }

    /// The answer to a query that the content decides, as `read` gives it.
    pub fn answer(&self, schema: &Schema, query: &Query) -> Result<Answer, OutOfMemory>
        requires { content_decides (types_of schema.now) self.now query.now ≡ true }
        ensures { IfOk result (λ answer. answer ≡ content_answer (types_of schema.now) self.now query.now) }
    {
        match self.read(schema, query)? {
            Some(answer) => Ok(answer),
            None => unreachable!(),
        }
    }

    /// The shortest front of the content that decides the query, no longer than the bound of its type;
    /// of an object the object. None where there is no such front. The one error is that there is no
    /// memory for the copy.
    pub fn front(&self, schema: &Schema, query: &Query) -> Result<Option<Content>, OutOfMemory>
        ensures { IfOk result (IsContentFront (types_of schema.now) self.now query.now) }
    {
        match self {
            Content::Object(object) => match query {
                Query::ObjGet { .. } => Ok(Some(Content::Object(copy_of(object)?))),
                _ => Ok(None),
            },
            Content::List(prefix) => match prefix.front(query, schema.bound_of(&query.key()))? {
                Some(front) => Ok(Some(Content::List(front))),
                None => Ok(None),
            },
        }
    }

    /// Whether this is a list with more edges than the other.
    pub fn is_longer(&self, other: &Content) -> bool
        ensures { result ≡ is_longer_content self.now other.now }
    {
        match (self, other) {
            (Content::List(prefix), Content::List(other)) => {
                other.edges().len() < prefix.edges().len()
            }
            _ => false,
        }
    }
}

fn copy_of(object: &Option<Object>) -> Result<Option<Object>, OutOfMemory>
    ensures { IfOk result (λ copy. copy ≡ object.now) }
{
    match object {
        Some(object) => Ok(Some(object.clone()?)),
        None => Ok(None),
    }
}
