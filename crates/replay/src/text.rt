//! The text of a reply.
ghost use Rattle.std.specs.Prelude.{Some};
ghost use Rattle.replay.specs.Texts.{time_text, watts_text, layer_word, report_text, refusal_text, answer_text, numbered_text};

use crate::reply::Reply;
use calls::answer::Answer;
use figure::report::Report;
use recording::refusal::{Layer, Refusal};
use std::fmt;

// A time in ms that may be absent.
#[derive(Drop)]
struct Time(Option<u32>);

// A value in W that may be absent.
#[derive(Drop)]
struct Watts(Option<i64>);

// The layer of a refusal, as a word.
#[derive(Drop)]
struct LayerWord(Layer);

// A report, on one line.
#[derive(Drop)]
struct ReportLine(Report);

// A refusal with its number, layer, place, position and field.
#[derive(Drop)]
struct RefusalLine(Refusal);

// The answer of a docket.
#[derive(Drop)]
struct AnswerLine(Answer);

// A reply to a line of a script, with the line's number.
#[derive(Drop)]
pub(crate) struct Numbered {
    pub(crate) line: usize,
    pub(crate) reply: Reply,
}

impl fmt::Display for Time {
    ghost output = { λ time. Some (time_text time.0) };

    fn fmt<W: fmt::Write>(&self, f: &mut fmt::Formatter<W>) -> fmt::Result {
        match self.0 {
            Some(ms) => write!(f, "{ms}"),
            None => f.write_str("none"),
        }
    }
}

impl fmt::Display for Watts {
    ghost output = { λ watts. Some (watts_text watts.0) };

    fn fmt<W: fmt::Write>(&self, f: &mut fmt::Formatter<W>) -> fmt::Result {
        match self.0 {
            Some(watts) => write!(f, "{watts}"),
            None => f.write_str("none"),
        }
    }
}

impl fmt::Display for LayerWord {
    ghost output = { λ layer. Some (layer_word layer.0) };

    fn fmt<W: fmt::Write>(&self, f: &mut fmt::Formatter<W>) -> fmt::Result {
        f.write_str(match self.0 {
            Layer::Recording => "recording",
            Layer::Reading => "reading",
            Layer::Docket => "docket",
            Layer::Delivery => "delivery",
            Layer::Setup => "setup",
        })
    }
}

impl fmt::Display for ReportLine {
    ghost output = { λ line. Some (report_text line.0) };

    fn fmt<W: fmt::Write>(&self, f: &mut fmt::Formatter<W>) -> fmt::Result {
        let disturbance = self.0.disturbance;
        let recovery = Time(self.0.recovery);
        let first = self.0.first;
        let second = Watts(self.0.second);
        let delivery = self.0.delivery;
        let verdict = self.0.verdict;
        write!(
            f,
            "report disturbance {disturbance} recovery {recovery} first {first} second {second} delivery {delivery} verdict {verdict}"
        )
    }
}

impl fmt::Display for RefusalLine {
    ghost output = { λ line. Some (refusal_text line.0) };

    fn fmt<W: fmt::Write>(&self, f: &mut fmt::Formatter<W>) -> fmt::Result {
        let number = self.0.number();
        let layer = LayerWord(self.0.layer());
        let place = self.0.place;
        let position = self.0.position;
        let field = self.0.field();
        write!(
            f,
            "refused {number} layer {layer} place {place} position {position} field {field}"
        )
    }
}

impl fmt::Display for AnswerLine {
    ghost output = { λ line. Some (answer_text line.0) };

    fn fmt<W: fmt::Write>(&self, f: &mut fmt::Formatter<W>) -> fmt::Result {
        match self.0 {
            Answer::Counted(count) => write!(f, "count {count}"),
            Answer::Closed(disturbance) => {
                let time = disturbance.time;
                let direction = disturbance.direction;
                write!(f, "closed {time} {direction}")
            }
            Answer::Reported(report) => {
                let line = ReportLine(report);
                write!(f, "{line}")
            }
            Answer::Reopened => f.write_str("reopened"),
            Answer::Refused(refusal) => {
                let line = RefusalLine(refusal);
                write!(f, "{line}")
            }
        }
    }
}

impl fmt::Display for Numbered {
    ghost output = { λ numbered. Some (numbered_text numbered.line numbered.reply) };

    fn fmt<W: fmt::Write>(&self, f: &mut fmt::Formatter<W>) -> fmt::Result {
        let line = self.line;
        match self.reply {
            Reply::Told(answer) => {
                let answer = AnswerLine(answer);
                writeln!(f, "{answer}")
            }
            Reply::Done => f.write_str("done\n"),
            Reply::NotOffered => writeln!(f, "line {line} is not offered"),
            Reply::NoCall => writeln!(f, "line {line} is no call"),
        }
    }
}
