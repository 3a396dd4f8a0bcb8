// The order of starting: the loads that start when the new sheet follows the running one, each after the load that it names where that starts too, or
// refusals 13, 15, 16 and 11; the book's own refusals come first.
#![tactic(auto)]

ghost use Rattle.std.specs.Prelude.{◌≡◌, ◌≤◌, length};
ghost use Rattle.model.specs.Answers.{bytes_only, buffer_after};
ghost use Rattle.model.specs.Bounds.{most_loads};
ghost use Rattle.model.specs.Order.{start_order, loads_order, sheets_order, order_result, WritesOrder, OrderKept};
ghost use Rattle.model.specs.Refusals.{done};
ghost use Rattle.model.specs.Values.{Held, problem_of};
ghost use Rattle.starts.specs.Places.{running_in};
ghost use Rattle.order.specs.Unrefused.{refused_order, Unrefused};

use model::{Answer, Book, OrderAnswer, Refusal};

// A refusal with line 0.
fn refused(r: Refusal) -> OrderAnswer
    ensures { result ≡ refused_order r }
{
    let answer = Answer::refusal(r, 0);
    OrderAnswer {
        answer,
        starts: 0,
        stops: 0,
    }
}

// The order, a step for each load that starts. `on` holds the loads that run by now.
fn write_order(
    running: [usize; Book::LOADS],
    planned: [usize; Book::LOADS],
    names: &[u8],
    starts: usize,
    order: &mut [u8],
)
    requires { Unrefused running planned names.now starts (length order.old) }
    ensures { order.new ≡ buffer_after (done (bytes_only (start_order (length names.now) (running_in (length names.now) running) (running_in (length names.now) planned) names.now))) order.old }
{
    let mut on = running;
    for i in 0..starts {
        let k = starts::next_start(on, planned, names).unwrap();
        on[k] = planned[k];
        order[i] = (k + 1) as u8;
    }
}

// The order for `count` loads: refusals 15, 16 and 11, or the order and the numbers of starts and stops.
fn order_of(
    count: usize,
    running: [usize; Book::LOADS],
    planned: [usize; Book::LOADS],
    names: &[u8],
    order: &mut [u8],
) -> OrderAnswer
    requires { count ≤ most_loads }
    ensures { WritesOrder (loads_order count names.now (length order.old) (running_in count running) (running_in count planned)) order.old order.new result }
{
    if starts::wrong_names(names, count) {
        return refused(Refusal::WrongNames);
    }
    if starts::some_blocked(running, planned, names) {
        return refused(Refusal::NamedLoadStands);
    }
    let starts = starts::start_count(running, planned, count);
    let stops = starts::start_count(planned, running, count);
    if order.len() < starts as usize {
        return refused(Refusal::BufferTooSmall);
    }
    write_order(running, planned, names, starts as usize, order);
    let answer = Answer::success(starts, 0, 0);
    OrderAnswer {
        answer,
        starts,
        stops,
    }
}

// The order for a book that was read: refusal 13 for the running sheet and then for the new one, or what the loads on them give.
fn order_for(
    book: Book,
    running: &[u8],
    planned: &[u8],
    names: &[u8],
    order: &mut [u8],
) -> OrderAnswer
    requires { Held book }
    ensures { WritesOrder (sheets_order running.now planned.now names.now (length order.old) (problem_of book)) order.old order.new result }
{
    let Some(old) = chosen::choice_on(book, running) else {
        return refused(Refusal::ForeignSheet);
    };
    let Some(new) = chosen::choice_on(book, planned) else {
        return refused(Refusal::ForeignSheet);
    };
    let old = old.picks;
    let new = new.picks;
    order_of(book.count, old, new, names, order)
}

// The order of starting from the running sheet to the new one.
pub fn order(
    book: &[u8],
    running: &[u8],
    planned: &[u8],
    names: &[u8],
    order: &mut [u8],
) -> OrderAnswer
    ensures result { WritesOrder (order_result book.now running.now planned.now names.now (length order.old)) order.old order.new result }
    ensures kept { result.answer.number ≡ 0 → OrderKept book.now running.now planned.now names.now order.new result }
{
    match book::read_book(book) {
        Ok(read) => order_for(read, running, planned, names, order),
        Err(refused) => OrderAnswer {
            answer: Answer::from(refused),
            starts: 0,
            stops: 0,
        },
    }
}
