ghost use Rattle.std.specs.Prelude.{◌≡◌, length};
ghost use Rattle.cost.specs.Texts.{laid};
ghost use Rattle.report.specs.Bounds.{Bounded};
ghost use Rattle.report.specs.Refusals.{answer};
ghost use Rattle.report.specs.Reports.{report_text};

use crate::lines::StopLines;
use crate::refusal::ReportRefusal;
use cost::text::Text;
use cost::written::Written;
use route::stop::Facts;

// Writes the report of stops with these facts and of their least cost into the buffer, and answers its length.
// A report longer than the buffer is refused, and the buffer stays as it was.
#[tactic(auto, using(crate::proofs::Lengths::report_bound))]
pub fn write_report<E, K: Written<E>>(
    facts: &[Facts],
    least: K,
    buf: &mut [u8],
) -> Result<usize, ReportRefusal>
    ensures answer { result ≡ answer (length (report_text facts.now (K.Written.text (K.Cost.exact least)))) (length buf.old) }
    ensures bytes { buf.new ≡ laid buf.old 0 (report_text facts.now (K.Written.text (K.Cost.exact least))) }
    ensures bound { Bounded facts.now (K.Cost.algebra.size (K.Cost.exact least)) (K.Written.text (K.Cost.exact least)) K.Written.longest }
{
    let stops = StopLines { facts };
    let least = (*b"least ", (least.to_text(), *b"\n"));
    (stops, least)
        .write(buf, 0)
        .ok_or(ReportRefusal::BufferTooShort)
}
