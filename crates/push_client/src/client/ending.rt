//! A push that is over ends.

ghost use Rattle.std.specs.Prelude.{◌≡◌};
ghost use Rattle.push_client.specs.Ending.{is_over, ended};

use super::PushClient;
use push_model::Stage;

/// Whether a push is over, and its end is not told.
fn is_over(stage: Stage) -> bool
    ensures { result ≡ is_over stage }
{
    matches!(stage, Stage::Over)
}

impl PushClient {
    /// Ends the push where it is over, as it does with `Step::Ended`, which is not answered any more then. Else nothing is
    /// changed. The shelf is not asked.
    pub fn end(&mut self)
        ensures { self.new ≡ ended self.old }
    {
        if self.failed || self.given {
            return;
        }
        if is_over(self.stage()) && self.outcome().is_some() {
            self.reception.dialog.course.stage = Stage::Rest;
        }
    }
}
