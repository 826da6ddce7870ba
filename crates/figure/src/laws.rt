//! The laws of the delivered figure.
ghost use Rattle.figure.specs.AskedLaws.{FigureIsOfWhatIsAsked};
ghost use Rattle.figure.specs.Laws.{FigureLaws};
ghost use Rattle.figure.specs.StepLaws.{StepLaws};
ghost use Rattle.figure.specs.WindowLaws.{WindowLaws};
ghost use Rattle.figure.specs.TurningLaws.{TurningLaws};

/// There is one answer and one exact delivery; every report is less than one watt from the exact
/// delivery, and its verdict is fair; powers at or after recovery change nothing.
pub fn figure_laws()
    ensures the_laws_of_the_figure_hold { FigureLaws }
{}

/// Each step means its rule: the trajectory and the pushes that it raises, the base, the
/// compensated response, where each step is rounded, and the lesser value.
pub fn step_laws()
    ensures steps_mean_their_rules { StepLaws }
{}

/// Windows mean their rule: which samples are used, the response at a window's ends, its value, its
/// place on the record, and when windows bar a delivery.
pub fn window_laws()
    ensures windows_mean_their_rules { WindowLaws }
{}

/// Low and high are treated alike. Mirror a record about nominal, change the signs of its powers
/// and of the targets', and take the other direction and the other side's service: every report,
/// every refusal and the exact delivery stay the same.
pub fn turning_laws()
    ensures low_and_high_alike { TurningLaws }
{}

/// The steps use what the request says, the report states their results, and the amount, the base
/// and the targets bar a delivery as the rules say.
pub fn asked_laws()
    ensures the_figure_is_that_of_what_is_asked { FigureIsOfWhatIsAsked }
{}
