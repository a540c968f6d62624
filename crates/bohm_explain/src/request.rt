//! The options of an explanation.

ghost use Rattle.std.specs.Prelude.{◌≡◌, ◌≤◌, None, IfSome};
ghost use Rattle.std.specs.Option.{SomeIff};
ghost use Rattle.bohm_explain.specs.Asked.{AreInRange, Asked, most_listed, numbers};
ghost use Rattle.bohm_settings.specs.Given.{IsBetween};
ghost use Rattle.bohm_types.specs.Limits.{most_txns};

use crate::layout::Layout;
use bohm_settings::Settings;
use std::marker::Model;

/// The most keys that are listed.
pub const MOST_LISTED: u32 = 1000;

/// The keys that are listed unless another number is requested.
pub const LISTED: u32 = 10;

/// The greatest number that a part can have: a log has at most this many transactions, and a part
/// has at least one.
pub const LAST_PART: u32 = bohm_types::MOST_TXNS as u32;

/// The settings of the run whose parts are explained, how many keys are listed, the hottest first,
/// and the number, from 1 on, of the part whose conflicts are drawn in a picture of all parts
/// (`None`: the figures, in this layout).
#[derive(Clone, Copy, Debug, PartialEq, Eq)]
pub struct Request {
    settings: Settings,
    top: u32,
    picture: Option<u32>,
    layout: Layout,
}

impl Model for Request {
    ghost use Rattle.bohm_explain.specs.Asked.{Asked, AreInRange};

    ghost Value = { Asked };

    ghost view = { λ r. record {
      given = r.settings;
      top = r.top;
      picture = r.picture;
      layout = r.layout;
    } };

    ghost invariant = { λ r. AreInRange
        (record { given = r.settings; top = r.top; picture = r.picture; layout = r.layout }) };

    ghost inverse = { λ a. record {
      settings = a.given;
      top = a.top;
      picture = a.picture;
      layout = a.layout;
    } };
}

impl Request {
    /// This request, if each number lies in its range. The first four are those of the settings.
    pub fn new(
        cc: u32,
        exec: u32,
        parts: u32,
        batch: u32,
        top: u32,
        picture: Option<u32>,
        layout: Layout,
    ) -> Option<Request>
        ensures { let asked : Asked = record {
          given = numbers cc exec parts batch;
          top = top;
          picture = picture;
          layout = layout;
        } in SomeIff result (AreInRange asked) asked }
    {
        let settings = Settings::new(cc, exec, parts, batch, 0, None)?;
        let in_range = top <= MOST_LISTED
            && picture.is_none_or(|number| (1..=LAST_PART).contains(&number));
        if !in_range {
            return None;
        }
        Some(Request {
            settings,
            top,
            picture,
            layout,
        })
    }

    /// The settings of the run.
    pub fn settings(&self) -> Settings
        ensures { result ≡ self.now.given }
    {
        self.settings
    }

    /// How many keys are listed, the hottest first.
    pub fn top(&self) -> u32
        ensures value { result ≡ self.now.top }
        ensures in_range { result ≤ most_listed }
    {
        self.top
    }

    /// The number of the part whose conflicts are drawn, from 1 on; `None` means the figures.
    pub fn picture(&self) -> Option<u32>
        ensures value { result ≡ self.now.picture }
        ensures in_range { IfSome result (IsBetween 1 most_txns) }
    {
        self.picture
    }

    /// How the figures are laid out.
    pub fn layout(&self) -> Layout
        ensures { result ≡ self.now.layout }
    {
        self.layout
    }
}
