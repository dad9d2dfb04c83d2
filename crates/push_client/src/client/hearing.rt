//! What a client hears of its link and of the features of its peer.

ghost use Rattle.std.specs.Prelude.{◌≡◌};
ghost use Rattle.push_model.specs.Events.{is_linked, is_paging, linked_at, over, is_asking_features, hears_news, LinkDown, LinkFailed, FeaturesTold};
ghost use Rattle.push_model.specs.Events as news;

use super::PushClient;
use crate::causes::{of_link, of_page};
use push_model::{Point, Stage};
use push_terms::Outcome;

/// Whether a link is there.
fn is_linked(stage: Stage) -> bool
    ensures { result ≡ is_linked stage }
{
    !matches!(stage, Stage::Rest | Stage::Link(_) | Stage::Over)
}

/// Whether a link is being made.
fn is_paging(stage: Stage) -> bool
    ensures { result ≡ is_paging stage }
{
    matches!(stage, Stage::Link(Point::Asked))
}

/// Whether the peer is asked for its features.
fn is_asking_features(stage: Stage) -> bool
    ensures { result ≡ is_asking_features stage }
{
    matches!(stage, Stage::Features(Point::Asked))
}

impl PushClient {
    /// Where the push is.
    pub fn stage(&self) -> Stage
        ensures { result ≡ self.now.stage }
    {
        self.reception.dialog.course.stage
    }

    /// The link is there. A push that was given up meanwhile breaks it again.
    pub fn link_up(&mut self)
        ensures { self.new ≡ linked_at self.old.stage self.old }
    {
        if !is_paging(self.stage()) {
            return;
        }
        let course = &mut self.reception.dialog.course;
        course.stage = if course.cause.is_some() {
            Stage::LinkEnd(Point::Due)
        } else {
            Stage::SearchChannel(Point::Due)
        };
    }

    /// The link is down.
    pub fn link_down(&mut self, reason: u8)
        ensures { self.new ≡ hears_news (LinkDown reason) self.old }
    {
        if is_linked(self.stage()) {
            self.end_without_link(of_link(reason));
        }
    }

    /// No link was made.
    pub fn link_failed(&mut self, status: u8)
        ensures { self.new ≡ hears_news (LinkFailed status) self.old }
    {
        if is_paging(self.stage()) {
            self.end_without_link(of_page(status));
        }
    }

    /// No link is there: the push is over, with its first cause.
    fn end_without_link(&mut self, outcome: Outcome)
        ensures { self.new ≡ over outcome self.old }
    {
        let course = &mut self.reception.dialog.course;
        course.stage = Stage::Over;
        course.cause = course.cause.or(Some(outcome));
        self.given = false;
    }

    /// The peer told its features, whichever they are, or that it does not tell them.
    pub(super) fn features_told(&mut self, _features: Option<u32>)
        ensures { self.new ≡ hears_news FeaturesTold self.old }
    {
        if is_asking_features(self.stage()) {
            self.reception.dialog.course.stage = Stage::ObjectChannel(Point::Due);
        }
    }

    /// The peer never answered what its features are.
    pub(super) fn features_lost(&mut self)
        ensures { self.new ≡ hears_news news.FeaturesLost self.old }
    {
        if is_asking_features(self.stage()) {
            self.reception.dialog.course.end(Outcome::RetryLimit);
        }
    }
}
