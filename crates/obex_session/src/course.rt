//! What stands of the objects that a server hears, and what the rules say of packets.

ghost use Rattle.std.specs.Prelude.{◌≡◌, if◌then◌else◌};
ghost use Rattle.obex_session.specs.Rules.{is_under_way, progress_in, is_ignoring};
ghost use Rattle.obex_session.specs.Turns.{is_single_in, is_first_in, is_followed, enables, course_refused, without_object, course_after};

use crate::marks::Kind;
use bt_base::PortFault;
use obex_headers::Code;

/// What stands of the object that the PUT packets of a run spell so far.
#[derive(Clone, Copy, Debug)]
pub(crate) enum Progress {
    /// There was no Name, and so no object is under way.
    Unnamed,
    /// There was a Name, and no body yet.
    Named,
    /// There was a Name, and bodies of so many octets in all.
    Filled(u32),
}

/// Where a session is in its packets.
#[derive(Clone, Copy, Debug)]
pub(crate) enum Course {
    /// No run goes on: the next PUT is the first of one.
    Rests,
    /// A PUT was refused in single response mode: those of the same object that were sent by then are
    /// passed over.
    Ignores,
    /// A run of PUTs goes on, with what stands of its object, and whether it is in single response
    /// mode.
    Runs(Progress, bool),
}

/// What the rules say of a packet, or of a header of it.
#[derive(Clone, Copy, Debug)]
pub(crate) enum Verdict {
    /// The object goes on.
    Open(Progress),
    /// The object is whole.
    Whole,
    /// The object, if there is one, ends without being stored, and this is answered.
    Ended(Code),
    /// The PUT is one of an object that was refused; and whether it is final.
    PassedOver(bool),
}

impl Progress {
    /// Whether an object is under way.
    pub(crate) fn is_under_way(self) -> bool
        ensures { result ≡ is_under_way self }
    {
        match self {
            Progress::Unnamed => false,
            Progress::Named | Progress::Filled(_) => true,
        }
    }
}

impl Course {
    /// What stands of the object under way.
    pub(crate) fn progress(self) -> Progress
        ensures { result ≡ progress_in self }
    {
        match self {
            Course::Rests | Course::Ignores => Progress::Unnamed,
            Course::Runs(progress, _) => progress,
        }
    }

    /// Whether PUTs of a refused object are passed over.
    pub(crate) fn is_ignoring(self) -> bool
        ensures { result ≡ is_ignoring self }
    {
        match self {
            Course::Ignores => true,
            Course::Rests | Course::Runs(_, _) => false,
        }
    }

    /// Whether the packet is the first of its run.
    pub(crate) fn is_first(self) -> bool
        ensures { result ≡ is_first_in self }
    {
        match self {
            Course::Rests | Course::Ignores => true,
            Course::Runs(_, _) => false,
        }
    }

    /// Whether the run is in single response mode, with this packet, where the session offers it.
    pub(crate) fn is_single(self, offered: bool, kind: Kind) -> bool
        ensures { result ≡ is_single_in offered self kind }
    {
        match self {
            Course::Rests | Course::Ignores => enables(offered, kind),
            Course::Runs(_, single) => single,
        }
    }

    /// Whether a refusal of the packet is followed by PUTs that are to be passed over.
    fn is_followed(self, kind: Kind) -> bool
        ensures { result ≡ is_followed self kind }
    {
        match (self, kind) {
            (Course::Ignores, Kind::Refused) => true,
            (Course::Runs(_, single), Kind::Refused) => single,
            (Course::Runs(_, single), Kind::Put(is_final, _)) => single && !is_final,
            _ => false,
        }
    }

    /// The course behind a packet that was refused.
    fn refused(self, kind: Kind) -> Course
        ensures { result ≡ course_refused self kind }
    {
        if self.is_followed(kind) {
            Course::Ignores
        } else {
            Course::Rests
        }
    }

    /// The course without an object under way.
    fn without_object(self) -> Course
        ensures { result ≡ without_object self }
    {
        match self {
            Course::Ignores => Course::Ignores,
            Course::Rests | Course::Runs(_, _) => Course::Rests,
        }
    }

    /// The course behind a packet of which this came.
    pub(crate) fn after(
        self,
        offered: bool,
        kind: Kind,
        outcome: Result<Verdict, PortFault>,
    ) -> Course
        ensures { result ≡ course_after offered self kind outcome }
    {
        match outcome {
            Ok(Verdict::Open(progress)) => Course::Runs(progress, self.is_single(offered, kind)),
            Ok(Verdict::Whole) => Course::Rests,
            Ok(Verdict::PassedOver(is_final)) => passing_over(is_final),
            Ok(Verdict::Ended(_)) | Err(PortFault::Failed) => self.refused(kind),
            Err(PortFault::NoMemory) => self.without_object(),
        }
    }
}

/// The course behind a PUT that was passed over.
fn passing_over(is_final: bool) -> Course
    ensures { result ≡ (if is_final then Course.Rests else Course.Ignores) }
{
    if is_final {
        Course::Rests
    } else {
        Course::Ignores
    }
}

/// Whether the first PUT of a run enables single response mode.
fn enables(offered: bool, kind: Kind) -> bool
    ensures { result ≡ enables offered kind }
{
    match kind {
        Kind::Put(_, marks) => offered && marks.single,
        Kind::Refused | Kind::Other(_) => false,
    }
}
