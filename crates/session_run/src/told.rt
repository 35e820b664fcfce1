//! Which core calls empty the list of open changes.
ghost use Rattle.std.specs.Prelude.{◌≡◌};
ghost use Rattle.session_run.specs.Own.{is_done, is_sid, empties_derived, empties};

use catalogue::{Ask, How, Reply};

fn is_done(reply: &Reply) -> bool
    ensures { result ≡ is_done reply.now }
{
    match reply {
        Reply::Done => true,
        Reply::Front(_) | Reply::Sid(_) | Reply::Columns(_) | Reply::Lines(_) | Reply::Refused(_) =>
            false,
    }
}

fn is_sid(reply: &Reply) -> bool
    ensures { result ≡ is_sid reply.now }
{
    match reply {
        Reply::Sid(_) => true,
        Reply::Done | Reply::Front(_) | Reply::Columns(_) | Reply::Lines(_) | Reply::Refused(_) =>
            false,
    }
}

fn empties_derived(how: &How, reply: &Reply) -> bool
    ensures { result ≡ empties_derived how.now reply.now }
{
    match how {
        How::Mutate(_) => false,
        How::Changes(_) => is_sid(reply),
    }
}

/// Whether a call with this reply empties the list of open changes.
pub(crate) fn empties(ask: &Ask, reply: &Reply) -> bool
    ensures { result ≡ empties ask.now reply.now }
{
    match ask {
        Ask::CloseSession => is_done(reply),
        Ask::Derive { how, .. } => empties_derived(how, reply),
        Ask::Append { .. } => is_sid(reply),
        Ask::OpenSession
        | Ask::Peek { .. }
        | Ask::Place { .. }
        | Ask::Publish { .. }
        | Ask::Unpublish { .. }
        | Ask::Get { .. }
        | Ask::Checkout { .. }
        | Ask::Release { .. }
        | Ask::Columns
        | Ask::Lines => false,
    }
}
