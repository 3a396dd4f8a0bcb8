// Runs the planner, the strict planner, the quick planner, the sheet reader, the charge, the order of starting, the views, the day and pooling on fixed
// books and sheets, and prints each answer. Every refusal is reached: 1 to 8 with its line, and 9 to 23. The stored output is what documents 01 and 02 say.
#![tactic(auto)]

use model::Answer;
use std::io;
use std::io::Print;

// Document 01's example.
const EXAMPLE: &[u8] =
    b"0101030400000064000A\n0201000500050005\n020100050004FFFC\n0201000400040000\n";

fn print(rt: &impl Print, text: &[u8]) -> io::Result<()> {
    rt.write_all(text)
}

fn print_field(rt: &impl Print, name: &[u8], n: u64) -> io::Result<()> {
    print(rt, name)?;
    rt.print(n)
}

// The numbers of an answer.
fn print_numbers(rt: &impl Print, name: &[u8], call: &[u8], a: Answer) -> io::Result<()> {
    print(rt, name)?;
    print_field(rt, call, a.number)?;
    print_field(rt, b" line ", a.line)?;
    print_field(rt, b" bytes ", a.bytes)?;
    print_field(rt, b" worth ", a.worth)?;
    print_field(rt, b" trials ", a.trials)
}

// An answer, and the buffer as the call left it.
fn print_answer(
    rt: &impl Print,
    name: &[u8],
    call: &[u8],
    a: Answer,
    sheet: &[u8],
) -> io::Result<()> {
    print_numbers(rt, name, call, a)?;
    print(rt, b"\n")?;
    print(rt, sheet)?;
    print(rt, b"\n")
}

fn quick_case(rt: &impl Print, name: &[u8], book: &[u8], sheet: &mut [u8]) -> io::Result<()> {
    let a = quick::quick(book, sheet);
    print_answer(rt, name, b": quick, number ", a, sheet)
}

fn plan_case(
    rt: &impl Print,
    name: &[u8],
    book: &[u8],
    work: &mut [u64],
    sheet: &mut [u8],
) -> io::Result<()> {
    let a = planner::plan(book, work, sheet);
    print_answer(rt, name, b": plan, number ", a, sheet)
}

fn strict_case(
    rt: &impl Print,
    name: &[u8],
    book: &[u8],
    work: &mut [u64],
    sheet: &mut [u8],
) -> io::Result<()> {
    let a = strict::plan_strict(book, work, sheet);
    print_answer(rt, name, b": strict, number ", a, sheet)
}

// The sheet reader on a book and a sheet.
fn reader_case(rt: &impl Print, name: &[u8], book: &[u8], sheet: &[u8]) -> io::Result<()> {
    let read = reader::read_sheet(book, sheet);
    let answer = read.answer;
    print_numbers(rt, name, b": reader, number ", answer)?;
    print_field(rt, b" code ", read.code)?;
    print(rt, b"\n")
}

// Books that the quick planner refuses; the buffer stays as it is.
fn refused_cases(rt: &impl Print, cases: &[(&[u8], &[u8])]) -> io::Result<()> {
    for (name, book) in cases {
        let mut sheet = [46u8; 60];
        quick_case(rt, name, book, &mut sheet)?;
    }
    Ok(())
}

// Refusals 1 to 8.
fn refused_books(rt: &impl Print) -> io::Result<()> {
    refused_cases(
        rt,
        &[
            (b"torn, empty", b""),
            (
                b"torn, load line",
                b"010102010000006400FF\n0201000300630000\n0201000300630000",
            ),
            (b"smudged", b"0101020100000064006g\n"),
            (b"stray, empty line", b"\n"),
            (b"stray, kind", b"010101010000006400FF\n0301000300630000\n"),
            (b"crowded, T", b"0105010100000064000A000A000A000A000A\n"),
            (b"crowded, o", b"010101010000006400FF\n0204000300630000\n"),
            (b"misshapen", b"010101010000006400FF\n020100030063000\n"),
            (b"beyond, N", b"01011901000000640064\n"),
            (b"beyond, d", b"01010141000000640064\n"),
            (b"slack", b"01010101000000640064\n020100010004FFFB\n"),
            (b"trailing", b"01010101000000640064\n020100010004FFFC\n\n"),
        ],
    )
}

// The planner with the words that the example needs, with something in them.
fn plan_with_enough(rt: &impl Print, name: &[u8], book: &[u8], sheet: &mut [u8]) -> io::Result<()> {
    let mut work = [77u64; 1056];
    plan_case(rt, name, book, &mut work, sheet)
}

// The planner with one word less.
fn plan_with_less(rt: &impl Print, name: &[u8], book: &[u8], sheet: &mut [u8]) -> io::Result<()> {
    let mut work = [77u64; 1055];
    plan_case(rt, name, book, &mut work, sheet)
}

// Too small a work area, and too small a buffer.
fn plan_with_neither(rt: &impl Print, name: &[u8], book: &[u8]) -> io::Result<()> {
    let mut short = [46u8; 47];
    plan_with_less(rt, name, book, &mut short)
}

// Books that the planner refuses, also with two faults: the first of 9 to 12 counts, and the buffer stays as it is.
fn refused_plans(rt: &impl Print) -> io::Result<()> {
    let mut sheet = [46u8; 48];
    plan_with_neither(rt, b"torn", b"0101")?;
    plan_with_neither(
        rt,
        b"oversize",
        b"0102014000000064FFFFFFFF\n020100010001000000010000\n",
    )?;
    plan_with_less(rt, b"cramped", EXAMPLE, &mut sheet)
}

// The same with a budget of one trial less than the example takes.
fn refused_budgets(rt: &impl Print) -> io::Result<()> {
    let book = b"010103040000000D000A\n0201000500050005\n020100050004FFFC\n0201000400040000\n";
    let mut short = [46u8; 47];
    let mut sheet = [46u8; 48];
    plan_with_neither(rt, b"cramped, no sheet", book)?;
    plan_with_enough(rt, b"no sheet, spent", book, &mut short)?;
    plan_with_enough(rt, b"spent", book, &mut sheet)
}

// Plans: document 01's example at its very budget, and loads that just fit, just do not, or draw nothing. Each finds the words as the one
// before left them.
fn plans(rt: &impl Print) -> io::Result<()> {
    let mut work = [77u64; 1056];
    let mut sheet = [46u8; 60];
    let cases: [(&[u8], &[u8]); 4] = [
        (
            b"budget 14",
            b"010103040000000E000A\n0201000500050005\n020100050004FFFC\n0201000400040000\n",
        ),
        (
            b"both run",
            b"01010201000000640064\n0201000300630000\n0201000300630000\n",
        ),
        (
            b"the smaller code",
            b"01010201000000640064\n0201000300640000\n0201000300640000\n",
        ),
        (
            b"limit 0",
            b"01010201000000640000\n0201000100000000\n0201000100010000\n",
        ),
    ];
    for (name, book) in cases {
        plan_case(rt, name, book, &mut work, &mut sheet)?;
    }
    Ok(())
}

// Loads that draw where they stand, of lines of kind 06: more than the limit in every choice, with the budget that the trials take and one less;
// more than where they run; and so much that a load passed over by the quick planner would fit later.
fn standing_plans(rt: &impl Print) -> io::Result<()> {
    let mut work = [77u64; 1056];
    let mut sheet = [46u8; 60];
    let none = b"0101020A00000002000A\n0601000B00000005000B0000\n0601000B00000005000B0000\n";
    plan_case(rt, b"no plan", none, &mut work, &mut sheet)?;
    quick_case(rt, b"no plan", none, &mut sheet)?;
    plan_case(
        rt,
        b"spent, no plan",
        b"0101020A00000001000A\n0601000B00000005000B0000\n0601000B00000005000B0000\n",
        &mut work,
        &mut sheet,
    )?;
    plan_case(
        rt,
        b"runs to draw less",
        b"0101010A00000064000A\n0601000B0000000000060000\n",
        &mut work,
        &mut sheet,
    )?;
    let later = b"0101020500000064000A\n0201000500030000\n060100080000000500040000\n";
    plan_case(
        rt,
        b"both run, one draws standing",
        later,
        &mut work,
        &mut sheet,
    )?;
    quick_case(rt, b"passed over", later, &mut sheet)
}

// A load that must run, of a line of kind 07: it crowds out a better choice, and a sheet on which it stands is foreign; and one that is over the
// limit at each level, which leaves the sheet before it in the buffer.
fn must_run_plans(rt: &impl Print) -> io::Result<()> {
    let mut work = [77u64; 1056];
    let mut sheet = [46u8; 60];
    let book =
        b"0101030500000064000A\n0201000900040000\n0702000100050000000300060000\n0201000400030000\n";
    plan_case(rt, b"must run", book, &mut work, &mut sheet)?;
    quick_case(rt, b"must run", book, &mut sheet)?;
    reader_case(
        rt,
        b"foreign, it stands",
        book,
        b"040000000D00000014010001\n050000000700000000000A\n",
    )?;
    let over = b"0101010A000000020005\n07020005000C0000000200060000\n";
    plan_case(rt, b"must run, no plan", over, &mut work, &mut sheet)?;
    quick_case(rt, b"must run, no plan", over, &mut sheet)
}

// Loads with |Q| above P, under a header of kind 08: two that cancel, each of which breaks the limit alone, and the same under kind 01; r = 4; such a header
// without its ratio; and |Q| one above 3 × P.
fn ratio_plans(rt: &impl Print) -> io::Result<()> {
    let mut work = [77u64; 3124];
    let mut sheet = [46u8; 60];
    let book = b"080102040300000064000A\n020100050004000C\n020100050004FFF4\n";
    plan_case(rt, b"they cancel", book, &mut work, &mut sheet)?;
    quick_case(rt, b"they cancel", book, &mut sheet)?;
    refused_cases(
        rt,
        &[
            (
                b"slack, kind 01",
                b"0101020400000064000A\n020100050004000C\n020100050004FFF4\n",
            ),
            (b"beyond, r", b"0801010104000000640064\n"),
            (b"misshapen, kind 08", b"08010101030000640064\n"),
            (
                b"slack, r = 3",
                b"0801010103000000640064\n020100010004FFF3\n",
            ),
        ],
    )
}

// The strict planner: a book on which the plain one goes above the limit; and one of which the compared choice does, though another with its pairs fits, and
// the same with a trial less in the budget.
fn strict_plans(rt: &impl Print) -> io::Result<()> {
    let mut work = [77u64; 8192];
    let mut sheet = [46u8; 60];
    let mill = b"010103080000006414B9\n0201003C08A1060A\n0201002806E70450\n0201001904500373\n";
    plan_case(rt, b"above", mill, &mut work, &mut sheet)?;
    strict_case(rt, b"never above", mill, &mut work, &mut sheet)?;
    let two_levels = b"01010102000000020064\n0702000100640000000200950000\n";
    plan_case(rt, b"same pairs", two_levels, &mut work, &mut sheet)?;
    strict_case(rt, b"same pairs", two_levels, &mut work, &mut sheet)?;
    let spent = b"01010102000000010064\n0702000100640000000200950000\n";
    strict_case(rt, b"spent", spent, &mut work, &mut sheet)
}

// A word too few; a byte too few; and d = 1, with too few of both.
fn refused_strictly(rt: &impl Print) -> io::Result<()> {
    let mut cramped = [77u64; 71];
    let mut work = [77u64; 72];
    let mut sheet = [46u8; 43];
    let two_levels = b"01010102000000020064\n0702000100640000000200950000\n";
    strict_case(rt, b"cramped", two_levels, &mut cramped, &mut sheet)?;
    strict_case(rt, b"no sheet", two_levels, &mut work, &mut sheet)?;
    let coarse = b"01010101000000020064\n0702000100640000000200950000\n";
    strict_case(rt, b"too coarse", coarse, &mut cramped, &mut sheet)
}

// Sheets that belong to the book, and sheets that do not.
fn sheets(rt: &impl Print) -> io::Result<()> {
    let cases: [(&[u8], &[u8]); 7] = [
        (
            b"quick sheet",
            b"040000000900000003000101\n0500000008FFFFFFFC000A\n",
        ),
        (
            b"plan",
            b"040000000A0000000E010100\n050000000900000001000A\n",
        ),
        (
            b"foreign, c above o",
            b"040000000A0000000E020100\n050000000900000001000A\n",
        ),
        (
            b"foreign, sum",
            b"040000000A0000000E010100\n050000000800000001000A\n",
        ),
        (
            b"foreign, worth",
            b"040000000B0000000E010100\n050000000900000001000A\n",
        ),
        (
            b"foreign, short",
            b"040000000A0000000E010100\n050000000900000001000A",
        ),
        (
            b"foreign, long",
            b"040000000A0000000E010100\n050000000900000001000A\n\n",
        ),
    ];
    for (name, sheet) in cases {
        reader_case(rt, name, EXAMPLE, sheet)?;
    }
    Ok(())
}

// The quick planner on document 01's example, with a buffer that is too small and with a larger one.
fn quick_sheets(rt: &impl Print) -> io::Result<()> {
    let mut short = [46u8; 47];
    quick_case(rt, b"no sheet", EXAMPLE, &mut short)?;
    let mut sheet = [46u8; 60];
    quick_case(rt, b"example", EXAMPLE, &mut sheet)
}

// The charge of a sheet of document 01's example.
fn charge_case(rt: &impl Print, name: &[u8], sheet: &[u8], prices: &[u16]) -> io::Result<()> {
    let charged = charge::charge(EXAMPLE, sheet, prices);
    let answer = charged.answer;
    print_numbers(rt, name, b": charge, number ", answer)?;
    print_field(rt, b" charge ", charged.charge)?;
    print(rt, b"\n")
}

// P = 9 at the price 20 is four hundredths and a half, which goes to the even four; then a price too many, and no price with a foreign sheet.
fn charges(rt: &impl Print) -> io::Result<()> {
    let sheet = b"040000000A0000000E010100\n050000000900000001000A\n";
    let prices = [20u16; 2];
    charge_case(rt, b"a half", sheet, &prices[..1])?;
    charge_case(rt, b"two prices", sheet, &prices)?;
    charge_case(rt, b"foreign, no price", b"", &prices[..0])
}

// The order from a sheet of document 01's example on which load 3 runs to its plan, on which loads 1 and 2 run; then the buffer, byte by byte.
fn order_case(rt: &impl Print, name: &[u8], names: &[u8], order: &mut [u8]) -> io::Result<()> {
    let ordered = order::order(
        EXAMPLE,
        b"040000000400000000000001\n050000000400000000000A\n",
        b"040000000A0000000E010100\n050000000900000001000A\n",
        names,
        order,
    );
    let answer = ordered.answer;
    print_numbers(rt, name, b": order, number ", answer)?;
    print_field(rt, b" starts ", ordered.starts)?;
    print_field(rt, b" stops ", ordered.stops)?;
    print(rt, b", buffer")?;
    for byte in order.iter() {
        print_field(rt, b" ", u64::from(*byte))?;
    }
    print(rt, b"\n")
}

// The same, where loads 1 and 2 name these.
fn named_case(
    rt: &impl Print,
    name: &[u8],
    first: u8,
    second: u8,
    order: &mut [u8],
) -> io::Result<()> {
    order_case(rt, name, &[first, second, 0], order)
}

// A load that names itself; one whose named load stops; then load 1 names load 2, with a buffer of one byte and of two.
fn orders(rt: &impl Print) -> io::Result<()> {
    let mut one = [46u8; 1];
    let mut two = [46u8; 2];
    named_case(rt, b"own number", 1, 0, &mut two)?;
    named_case(rt, b"a named load stops", 2, 3, &mut two)?;
    named_case(rt, b"no sheet", 2, 0, &mut one)?;
    named_case(rt, b"two to start", 2, 0, &mut two)
}

// What the mill sees of a sheet of document 01's example, and then what the supply company sees, in the same buffer.
fn view_case(rt: &impl Print, name: &[u8], sheet: &[u8], view: &mut [u8]) -> io::Result<()> {
    let a = views::mill_view(EXAMPLE, sheet, view);
    print_answer(rt, name, b": mill, number ", a, view)?;
    let a = views::supply_view(EXAMPLE, sheet, view);
    print_answer(rt, name, b": supply, number ", a, view)
}

// The plan, on which load 3 stands: with a byte too few for the mill, and with room to spare; and a foreign sheet with no room at all.
fn views(rt: &impl Print) -> io::Result<()> {
    let sheet = b"040000000A0000000E010100\n050000000900000001000A\n";
    let mut short = [46u8; 18];
    let mut view = [46u8; 24];
    view_case(rt, b"no sheet", sheet, &mut short)?;
    view_case(rt, b"plan", sheet, &mut view)?;
    view_case(rt, b"foreign, no sheet", b"", &mut short[..0])
}

// A day's books, and the buffer as the call left it.
fn day_case(rt: &impl Print, name: &[u8], books: &[u8], out: &mut [u8]) -> io::Result<()> {
    let mut work = [77u64; 1056];
    let a = day::day(books, &mut work, out);
    print_answer(rt, name, b": day, number ", a, out)
}

// Document 01's example, a misshapen book and an empty one: with a byte too few, and with one to spare. Then 32 empty books, which do not fit, and 33
// with no room at all.
fn days(rt: &impl Print) -> io::Result<()> {
    let mut short = [46u8; 65];
    let mut out = [46u8; 67];
    let books =
        b"0101030400000064000A\n0201000500050005\n020100050004FFFC\n0201000400040000\n\n0101\n\n";
    day_case(rt, b"too long", books, &mut short)?;
    day_case(rt, b"three books", books, &mut out)?;
    let lines = [10u8; 32];
    day_case(rt, b"32 books, too long", &lines[..31], &mut short)?;
    day_case(rt, b"33 books, too long", &lines, &mut short[..0])
}

// Two books, and the buffer as the call left it.
fn pool_case(
    rt: &impl Print,
    name: &[u8],
    first: &[u8],
    second: &[u8],
    pooled: &mut [u8],
) -> io::Result<()> {
    let a = pool::pool(first, second, pooled);
    print_answer(rt, name, b": pool, number ", a, pooled)
}

// Two mills of a limit of 5 and a load of (4, 4) and (4, -4), of which neither fits alone: with a byte too few, and with just enough; then the pooled plan, on
// which both run.
fn pools(rt: &impl Print) -> io::Result<()> {
    let first = b"01010104000000640005\n0201000500040004\n";
    let second = b"080101040300000C800005\n020100040004FFFC\n";
    let mut short = [46u8; 56];
    let mut pooled = [46u8; 57];
    pool_case(rt, b"no sheet", first, second, &mut short)?;
    pool_case(rt, b"two mills", first, second, &mut pooled)?;
    let mut work = [77u64; 6144];
    let mut sheet = [46u8; 47];
    plan_case(rt, b"two mills", &pooled, &mut work, &mut sheet)
}

// Both books torn, of which the first's fault is given; the second torn, whose line counts on; another d, with loads too many; as many loads; and limits too
// large, with no room at all.
fn refused_pools(rt: &impl Print) -> io::Result<()> {
    let mill = b"0101010400000064FFFF\n0201000500040004\n";
    let many =
        b"01010D010000006400FF\n0201000000000000\n0201000000000000\n0201000000000000\n0201000000000000\n0201000000000000\n0201000000000000\n0201000000000000\n0201000000000000\n0201000000000000\n0201000000000000\n0201000000000000\n0201000000000000\n0201000000000000\n";
    let mut pooled = [46u8; 10];
    pool_case(rt, b"both torn", b"01", b"01", &mut pooled)?;
    pool_case(rt, b"second torn", mill, b"01", &mut pooled)?;
    pool_case(rt, b"other fineness", mill, many, &mut pooled)?;
    pool_case(rt, b"too many loads", many, many, &mut pooled)?;
    pool_case(rt, b"limit too large", mill, mill, &mut pooled[..0])
}

fn main(rt: HostRuntime) -> io::Result<()> {
    refused_books(&rt)?;
    quick_sheets(&rt)?;
    sheets(&rt)?;
    reader_case(&rt, b"torn book", b"0101", b"")?;
    refused_plans(&rt)?;
    refused_budgets(&rt)?;
    plans(&rt)?;
    standing_plans(&rt)?;
    must_run_plans(&rt)?;
    ratio_plans(&rt)?;
    strict_plans(&rt)?;
    refused_strictly(&rt)?;
    charges(&rt)?;
    orders(&rt)?;
    views(&rt)?;
    days(&rt)?;
    pools(&rt)?;
    refused_pools(&rt)
}
