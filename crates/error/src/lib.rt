// error.rs: why a drawing ends, and the paper's number of each refusal.
#![tactic(auto)]

ghost use Rattle.std.specs.Prelude.{◌≡◌};
ghost use Rattle.error.specs.Reasons.{number_of};

// Checks in front of a call, in their order
pub const SCRATCH_TOO_SHORT: u8 = 1;

pub const BUNDLE_TOO_LARGE: u8 = 2;

pub const BUNDLE_LAYOUT: u8 = 3;

pub const PARTIAL_PARAMETER: u8 = 4;

pub const STRICT_AND_GUIDE_TRUTH: u8 = 5;

pub const TEMPLATE_NOT_FOUND: u8 = 6;

pub const PLAN_TOO_LARGE: u8 = 7;

pub const PLAN_NOT_JSON: u8 = 8;

pub const NUMBER_NOT_INTEGER: u8 = 9;

pub const TOO_MANY_VALUES: u8 = 10;

#[derive(Clone, Copy, PartialEq, Eq)]
pub enum RenderErrorReason {
    MissingVariable,
    PartialNotFound,
    PartialBlockNotFound,
    HelperNotFound,
    ParamNotFoundForIndex,
    DecoratorNotFound,
    CannotIncludeSelf,
    InvalidParamType,
    BlockContentRequired,
    InvalidJsonIndex,
    // limits
    IndentLimit,
    EntriesLimit,
    ScopesLimit,
    BlockTextsLimit,
    PageLimit,
    // a number that is none of theirs, which no code gives: it is read as the page's limit
    Other(u8),
}

impl RenderErrorReason {
    // Its number in the paper.
    pub fn number(self) -> u32
        ensures { result ≡ number_of self }
    {
        match self {
            RenderErrorReason::MissingVariable => 11,
            RenderErrorReason::PartialNotFound => 12,
            RenderErrorReason::PartialBlockNotFound => 13,
            RenderErrorReason::HelperNotFound => 14,
            RenderErrorReason::ParamNotFoundForIndex => 15,
            RenderErrorReason::DecoratorNotFound => 16,
            RenderErrorReason::CannotIncludeSelf => 17,
            RenderErrorReason::InvalidParamType => 18,
            RenderErrorReason::BlockContentRequired => 19,
            RenderErrorReason::InvalidJsonIndex => 20,
            RenderErrorReason::IndentLimit => 21,
            RenderErrorReason::EntriesLimit => 22,
            RenderErrorReason::ScopesLimit => 23,
            RenderErrorReason::BlockTextsLimit => 24,
            RenderErrorReason::PageLimit => 25,
            RenderErrorReason::Other(_) => 25,
        }
    }
}
