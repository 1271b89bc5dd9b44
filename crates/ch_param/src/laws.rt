//! What holds of the definitions that this crate's contracts cite. Each law is the contract of a
//! function that does nothing.

ghost use Rattle.ch_param.specs.Fresh.{FreshShows};
ghost use Rattle.ch_param.specs.InOrder.{LogsInOrder};
ghost use Rattle.ch_param.specs.Later.{LogsAtLaterHalves};
ghost use Rattle.ch_param.specs.Limits.{ParamLimits};

/// The chapter is its header and its logs. It is fresh exactly where the S bit of its header is 0, and exactly
/// where that of one of its logs is; and each log tells by its own whether the packet before entered it.
pub fn fresh_shows()
    ensures { FreshShows }
{}

/// A parameter has a log exactly where one of its halves is coded, and the log stands at the later of the
/// coded halves.
pub fn logs_at_later_halves()
    ensures { LogsAtLaterHalves }
{}

/// Logs stand oldest first and are of distinct parameters.
pub fn logs_in_order()
    ensures { LogsInOrder }
{}

/// How the number of parameters that the chapter codes changes as commands are sent and the checkpoint grows.
pub fn param_limits()
    ensures { ParamLimits }
{}
