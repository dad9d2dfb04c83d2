//! Laws of the two sides of a multiplexer of RFCOMM together, over a pipe in each direction.
#![tactic(auto)]

ghost use Rattle.rfcomm_laws.specs.Assembling.{PiecesAreOfOneStream};
ghost use Rattle.rfcomm_laws.specs.Closings.{ClosingsAreOrderly};
ghost use Rattle.rfcomm_laws.specs.Covers.{CreditsCover};
ghost use Rattle.rfcomm_laws.specs.Happenings.{FramesAreFew};
ghost use Rattle.rfcomm_laws.specs.Links.{SdusAreFrames, LinksArePipes, StillLinksAreDone, LinksCloseInOrder};
ghost use Rattle.rfcomm_laws.specs.Messages.{AllowedLeaveOpen};
ghost use Rattle.rfcomm_laws.specs.Pairs.{PairsArePipes};
ghost use Rattle.rfcomm_laws.specs.Rests.{OctetsCome, StillIsDone};
ghost use Rattle.rfcomm_laws.specs.Rooms.{FramesFindRoom, SdusFindRoom};
ghost use Rattle.rfcomm_laws.specs.SingleAnswers.{CommandsAreAnsweredOnce, FramesAreAnsweredOnce};
ghost use Rattle.rfcomm_laws.specs.Totals.{NoneIsOverdrawn};

/// The two sides are a pipe of octets each way, and neither closes, whatever frames are under way.
pub fn pairs_are_pipes()
    ensures { PairsArePipes }
{}

/// The credits that a side holds, its frames with information under way and the grants under way to it are together no
/// more than what the other side counts as granted and not yet used.
pub fn credits_cover()
    ensures { CreditsCover }
{}

/// Each frame that comes to a side lowers a number of the pair, whatever the frame and the sides; so finitely many come
/// for all octets that are given, and for every closing.
pub fn frames_are_few()
    ensures { FramesAreFew }
{}

/// Where no frame is on the way and neither side has one to send, the channel is open both ways and all octets that were
/// taken have come, if both sides grant credits and nobody closes.
pub fn still_is_done()
    ensures { StillIsDone }
{}

/// In whatever order frames are said and come: they are finitely many for all octets that are given, and while nobody
/// closes they go on until the channel is open and each octet that was taken has come.
pub fn octets_come()
    ensures { OctetsCome }
{}

/// Octets given to an assembler in any pieces give the packets into which the whole stream falls by its lengths.
pub fn pieces_are_of_one_stream()
    ensures { PiecesAreOfOneStream }
{}

/// What two sides do with SDUs is what they do with the frames that these spell.
pub fn sdus_are_frames()
    ensures { SdusAreFrames }
{}

/// Over SDUs, in whatever spelling a side sends its frames: the two sides are a pipe of octets each way. Neither closes
/// while none is told to, and where nothing is on the way and nobody has anything to send, all octets have come. Where
/// one is told to close, or both, neither refuses the other.
pub fn links_are_pipes()
    ensures pipes { LinksArePipes }
    ensures still { StillLinksAreDone }
    ensures closings { LinksCloseInOrder }
{}

/// Either side, or both, may be told to close at any moment, also while the channel opens: neither refuses what the other
/// sent, so each is closed by DISC or DM if at all, and what came is a front of what went, both ways.
pub fn closings_are_orderly()
    ensures { ClosingsAreOrderly }
{}

/// At every moment, through openings and closings: a side sent no more frames with information than the other one granted
/// credits, by PN and in credit octets.
pub fn none_is_overdrawn()
    ensures { NoneIsOverdrawn }
{}

/// Each frame that comes to a side finds room for its answers, also where either side, or both, are told to close at any
/// moment: no more than nine answers wait, so none is ignored. Over SDUs too.
pub fn answers_find_room()
    ensures frames { FramesFindRoom }
    ensures sdus { SdusFindRoom }
{}

/// A control message closes an open side exactly where it is malformed, PN with frames below 23 octets, or PN for
/// the user channel without credit based flow control, as long as the credits that the side is granted stay within 65,535.
pub fn allowed_leave_open()
    ensures { AllowedLeaveOpen }
{}

/// On the control channel a command is answered once at most, where its answer has no more than 40 octets, and nothing else is,
/// whatever a side has come to; so a frame is given no more answers than one for SABM, for DISC and for each such command in it.
pub fn commands_are_answered_once()
    ensures messages { CommandsAreAnsweredOnce }
    ensures frames { FramesAreAnsweredOnce }
{}
