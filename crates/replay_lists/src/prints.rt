// What is printed for a list.
use crate::areas::Areas;
use replay_cells::WIDTH;
use replay_format::Head;
use std::io;

pub fn bad_line(rt: &impl Print) -> io::Result<()> {
    rt.println("bad line")
}

// The answers to a list, five numbers each, and its index.
fn answers(rt: &(impl AllocGlobal + Print), list: &[u8], areas: &Areas) -> io::Result<()> {
    let Some(head) = Head::read(list) else {
        return bad_line(rt);
    };
    let calls = head.call_count();
    let (rows, _) = areas.answers.as_chunks::<WIDTH>();
    let Some(rows) = rows.get(..calls + 2 + head.question_count()) else {
        return bad_line(rt);
    };
    for [no, a, b, c, d] in rows {
        println!(rt; "{no} {a} {b} {c} {d}")?;
    }
    // finish's answer stands behind the calls', its total behind its number: 0 where it is refused, and has no index
    let index = rows
        .get(calls)
        .and_then(|[_, total, ..]| areas.out.get(..*total as usize))
        .unwrap_or(&[]);
    let index = hex::encode(rt.alloc(), index)?;
    println!(rt; "x{index}")
}

// Replays the list, and prints its number; where that is 0 its answers too; and what it leaves.
pub fn replayed(rt: &(impl AllocGlobal + Print), list: &[u8], areas: &mut Areas) -> io::Result<()> {
    match areas.replay(list) {
        Ok(()) => {
            rt.println(0)?;
            answers(rt, list, areas)?;
        }
        Err(error) => rt.println(u32::from(error))?,
    }
    rt.println(&*areas)
}
