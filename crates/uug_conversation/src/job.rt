ghost use Rattle.uug_conversation.specs.Party.{HasNames};
ghost use Rattle.uug_talk.specs.Order.{AreNames, IsCopy};

use uug_talk::Name;

/// A job that an end wants to do in a session.
#[derive(Clone, Copy, Debug, PartialEq, Eq)]
pub enum Job {
    /// Sends a file to the other end.
    Send {
        /// The file's name here.
        source: Name,
        /// The file's name at the other end.
        target: Name,
        /// The user to whom the file belongs.
        user: Name,
        /// The name of the copy that was made of the file, if any.
        temp: Option<Name>,
    },
    /// Requests a file from the other end.
    Request {
        /// The file's name at the other end.
        source: Name,
        /// The file's name here.
        target: Name,
        /// The user to whom the file belongs.
        user: Name,
    },
}

impl Job {
    /// Reads its names, to show that they are names. A proof learns what a name's type says only from a reading call.
    pub(crate) fn look_at_names(&self)
        ensures { HasNames self.now }
    {
        match self {
            Job::Send {
                source,
                target,
                user,
                temp,
            } => {
                look_at_all(source, target, user);
                look_at_copy(temp);
            }
            Job::Request {
                source,
                target,
                user,
            } => look_at_all(source, target, user),
        }
    }
}

fn look_at_all(source: &Name, target: &Name, user: &Name)
    ensures { AreNames source.now target.now user.now }
{
    source.as_bytes();
    target.as_bytes();
    user.as_bytes();
}

fn look_at_copy(temp: &Option<Name>)
    ensures { IsCopy temp.now }
{
    if let Some(temp) = temp {
        temp.as_bytes();
    }
}
