//! Laws over moments.
ghost use Rattle.farm_report.specs.Moments.{MomentsAgree};

/// The numbers of moments that the code tests are those of the definitions.
pub fn moments_agree()
    ensures { MomentsAgree }
{}
