// Replies as text.
use crate::call::Reply;
use std::fmt;

impl fmt::Display for Reply {
    fn fmt<W: fmt::Write>(&self, f: &mut fmt::Formatter<W>) -> fmt::Result {
        match self {
            Reply::Updated(marks) => write!(f, "ok {marks}"),
            Reply::Handle(Some(handle)) => write!(f, "{handle}"),
            Reply::Nearest(Some(pair)) => write!(f, "{} {}", pair.key, pair.handle),
            Reply::Handle(None) | Reply::Nearest(None) => f.write_str("none"),
        }
    }
}
