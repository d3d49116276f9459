// The numbers of refusals, as wide as an answer has them.
pub const SCRATCH_TOO_SHORT: u32 = error::SCRATCH_TOO_SHORT as u32;

pub const STRICT_AND_GUIDE_TRUTH: u32 = error::STRICT_AND_GUIDE_TRUTH as u32;

pub const TEMPLATE_NOT_FOUND: u32 = error::TEMPLATE_NOT_FOUND as u32;
