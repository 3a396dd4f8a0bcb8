// What is printed of a planner's answer: its sheet, or the line of a refusal.
#![tactic(auto)]

ghost use Rattle.std.specs.Prelude.{◌≡◌, ◌≤◌, length};
ghost use Rattle.model.specs.Program.{refusal_line, printed_from};
ghost use Rattle.hexadecimal.specs.Written.{written};

use model::Answer;

// Writes `FF`, the number (2 digits) and the line (4 digits), ended by LF.
fn write_refusal(out: &mut [u8], number: u64, line: u64)
    requires { 9 ≤ length out.old }
    ensures { out.new ≡ written out.old 0 (refusal_line number line) }
{
    hexadecimal::write(out, 0, 2, 255);
    hexadecimal::write(out, 2, 2, number);
    hexadecimal::write(out, 4, 4, line);
    out[8] = 10;
}

// Makes of the buffer that a call was lent what is printed of its answer, and answers how many bytes that is. An answer has its number, as C
// takes it.
pub fn print_answer(answer: Answer, out: &mut [u8]) -> usize
    requires in_bounds { 9 ≤ length out.old }
    requires bytes_in_bounds { answer.bytes ≤ length out.old }
    ensures bytes { out.new ≡ written out.old 0 (printed_from answer out.old) }
    ensures length { result ≡ length (printed_from answer out.old) }
{
    if answer.number == 0 {
        return answer.bytes as usize;
    }
    write_refusal(out, answer.number, answer.line);
    9
}
