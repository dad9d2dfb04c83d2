//! Laws of the multiplexer, for every list of what may be done.

ghost use Rattle.rfcomm_model.specs.Captured.{CapturesRead, UnfloodedCapturesRead};
ghost use Rattle.rfcomm_model.specs.Closed.{EndingsLookBack};
ghost use Rattle.rfcomm_model.specs.ClosedSides.{ClosedSidesRead, UnfloodedClosedSidesRead};
ghost use Rattle.rfcomm_model.specs.Loads.{LoadFalls};
ghost use Rattle.rfcomm_model.specs.Taken.{TakenIsSent};
ghost use Rattle.rfcomm_model.specs.Sides.{SidesRead, UnfloodedSidesRead, ClosedForGood, NumbersStay};

/// What a multiplexer hands up, the credits that it holds and how far its channels are is what the
/// frames say, whatever comes, while it is not closed and has room for the answers.
pub fn sides_read()
    ensures room { SidesRead }
    ensures unflooded { UnfloodedSidesRead }
{}

/// That holds on through a closing in order: the frames say when it was closed, and what it handed up and the credits that
/// it holds are what the frames up to then say, whatever comes later.
pub fn closed_sides_read()
    ensures room { ClosedSidesRead }
    ensures unflooded { UnfloodedClosedSidesRead }
{}

/// The SDUs that passed on its L2CAP channel, whatever spelling its own frames had, carry the octets that it handed up and
/// grant the credits that it holds, through a closing in order.
pub fn captures_read()
    ensures room { CapturesRead }
    ensures unflooded { UnfloodedCapturesRead }
{}

/// A multiplexer that was closed stays so, and hands nothing up.
pub fn closed_for_good()
    ensures { ClosedForGood }
{}

/// A multiplexer keeps its side, its channel and its room.
pub fn numbers_stay()
    ensures { NumbersStay }
{}

/// A number of a multiplexer falls by each SDU that it hears, rises by no frame that it sends, and rises by octets that
/// are given to it and by its closing alone, by 2 and by 4.
pub fn load_falls()
    ensures { LoadFalls }
{}

/// A connection is ended, in one pass, exactly where it was closed, looking back over all frames: open and left by DISC of
/// either side, or asked for and left by DISC of the initiator.
pub fn endings_look_back()
    ensures { EndingsLookBack }
{}

/// The octets that a multiplexer took are, in order, the information of the data frames that it sent, but for those that
/// wait; where it was closed, those that waited are lost.
pub fn taken_is_sent()
    ensures { TakenIsSent }
{}
