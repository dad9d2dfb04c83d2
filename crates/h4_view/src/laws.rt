//! Laws of the view of an input. Each is the contract of a function that does nothing.

ghost use Rattle.h4_view.specs.Laws.{OneView, EachInputIsViewed, FrontIsOfTheView, OneViewOf, EachIsViewedAs, FilesAreShown, CapturesAreShown};
ghost use Rattle.h4_view.specs.Tagged.{tagged_capture};
ghost use Rattle.h4_view.specs.Snoop.{snoop_file};

/// An input has no two views.
pub fn one_view()
    ensures { OneView }
{}

/// Each list of octets has a view.
pub fn each_input_is_viewed()
    ensures { EachInputIsViewed }
{}

/// Whatever a view answers, what was written is a front of the text of the view.
pub fn front_is_of_the_view()
    ensures { FrontIsOfTheView }
{}

/// A capture of two hosts has no two views.
pub fn one_tagged_view()
    ensures { OneViewOf tagged_capture }
{}

/// Each list of octets has a view as a capture of two hosts.
pub fn each_tagged_is_viewed()
    ensures { EachIsViewedAs tagged_capture }
{}

/// A capture of two hosts within the greatest length is shown whole.
pub fn captures_are_shown()
    ensures { CapturesAreShown }
{}

/// A btsnoop file has no two views.
pub fn one_snoop_view()
    ensures { OneViewOf snoop_file }
{}

/// Each list of octets has a view as a btsnoop file.
pub fn each_snoop_is_viewed()
    ensures { EachIsViewedAs snoop_file }
{}

/// A btsnoop file within the greatest length is shown whole.
pub fn files_are_shown()
    ensures { FilesAreShown }
{}
