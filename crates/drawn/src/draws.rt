use games::deal::Terms;
use reading::sides::Sides;
use rival::random::Random;
use std::alloc::{AllocError, Global};

/// How large a machine is.
#[derive(Clone, Copy)]
pub struct Size {
    pub states: u16,
    pub own: u8,
    pub partner: u8,
}

/// The most moves of a machine sheet.
const MOST_MOVES: usize = 4096;

/// Mostly a small machine.
pub fn small(random: &mut Random) -> Size {
    let most = if random.once_in(25) { 59 } else { 11 };
    Size {
        states: 1 + random.up_to(most),
        own: 1 + random.byte_up_to(3),
        partner: 1 + random.byte_up_to(3),
    }
}

/// Floors and partner signals of a lift.
pub fn lift(random: &mut Random) -> (u8, u8) {
    let most = if random.once_in(25) { 30 } else { 8 };
    (2 + random.byte_up_to(most), 2 + random.byte_up_to(2))
}

/// How many next states there are beside one, on average.
fn width(random: &mut Random, states: u16) -> u16 {
    match random.up_to(7) {
        0..=4 => 0,
        5 => 1,
        6 => 2,
        _ => states / 2,
    }
}

/// Once in how many times a pair of signals has no move at all.
fn gaps(random: &mut Random) -> u16 {
    match random.up_to(3) {
        0..=2 => 1000,
        _ => 12,
    }
}

/// Keys and targets in their order: sparse or dense, with few or many pairs of signals that have no move.
fn moves(
    heap: Global,
    random: &mut Random,
    size: Size,
) -> Result<(Vec<u16>, Vec<u16>), AllocError> {
    let (width, gaps) = (width(random, size.states), gaps(random));
    let last = size.states.saturating_sub(1);
    let mut keys = Vec::new(heap);
    let mut targets = Vec::new(heap);
    let mut key = 0u16;
    for _ in 0..size.states {
        for _ in 0..u16::from(size.own) * u16::from(size.partner) {
            let (moves, one) = (!random.once_in(gaps), random.up_to(last));
            for target in 0..size.states {
                let chosen = target == one || random.up_to(last) < width;
                if moves && chosen && keys.len() < MOST_MOVES {
                    keys.push(key)?;
                    targets.push(target)?;
                }
            }
            key = key.saturating_add(1);
        }
    }
    Ok((keys, targets))
}

fn push_pair(bytes: &mut Vec<u8>, number: u16) -> Result<(), AllocError> {
    bytes.extend_from_slice(&number.to_le_bytes())
}

/// A machine sheet.
pub fn sheet(heap: Global, random: &mut Random, size: Size) -> Result<Vec<u8>, AllocError> {
    let (keys, targets) = moves(heap, random, size)?;
    let mut bytes = Vec::new(heap);
    push_pair(&mut bytes, size.states)?;
    bytes.extend_from_slice(&[size.own, size.partner])?;
    push_pair(&mut bytes, random.up_to(size.states.saturating_sub(1)))?;
    push_pair(&mut bytes, u16::try_from(keys.len()).unwrap_or(0))?;
    for _ in 0..size.states {
        bytes.push(random.byte_up_to(7))?;
    }
    for number in keys.iter().chain(targets.iter()) {
        push_pair(&mut bytes, *number)?;
    }
    Ok(bytes)
}

/// A mark sheet: many or few goals, hardly one in some draws, and few forbidden states.
pub fn marks(heap: Global, random: &mut Random, states: u16) -> Result<Vec<u8>, AllocError> {
    let goals = if random.once_in(20) {
        u16::MAX
    } else {
        1 + random.up_to(3)
    };
    let forbidden = 4 + random.up_to(40);
    let mut bytes = Vec::new(heap);
    let mut goal_bytes = Vec::new(heap);
    for byte in 0..32u16 {
        let (mut forbidden_byte, mut goal_byte) = (0u8, 0u8);
        for bit in 0..8u16 {
            let known = 8 * byte + bit < states;
            if known && random.once_in(goals) {
                goal_byte |= 1 << bit;
            } else if known && random.once_in(forbidden) {
                forbidden_byte |= 1 << bit;
            }
        }
        bytes.push(forbidden_byte)?;
        goal_bytes.push(goal_byte)?;
    }
    bytes.extend_from_slice(goal_bytes.as_slice())?;
    Ok(bytes)
}

/// A rule sheet for a machine of so many states.
pub fn rule(heap: Global, random: &mut Random, states: u16) -> Result<Vec<u8>, AllocError> {
    let most = if random.once_in(6) { 8 } else { 3 };
    let room = (256 / states.max(1)).clamp(1, most);
    let last = random.up_to(room - 1) as u8;
    let mut accepting = 0u8;
    for _ in 0..=last {
        accepting = accepting << 1 | u8::from(!random.once_in(3));
    }
    let forbidden = if random.once_in(3) {
        1 << random.byte_up_to(7)
    } else {
        0
    };
    let start = random.byte_up_to(last);
    let mut bytes = Vec::new(heap);
    bytes.extend_from_slice(&[1 + last, accepting, forbidden, start])?;
    for _ in 0..=last {
        for _ in 0..8 {
            bytes.push(random.byte_up_to(last))?;
        }
    }
    Ok(bytes)
}

/// Any sizes of a phase table.
pub fn sizes(random: &mut Random) -> [u8; 3] {
    let phases = 1 + random.byte_up_to(7);
    [phases, 1 + random.byte_up_to(3), 1 + random.byte_up_to(3)]
}

/// A phase table of these sizes: phases, signals of side 0, signals of side 1.
pub fn table(heap: Global, random: &mut Random, sizes: [u8; 3]) -> Result<Vec<u8>, AllocError> {
    let [phases, first, second] = sizes;
    let last = phases.saturating_sub(1);
    let mut bytes = Vec::new(heap);
    bytes.extend_from_slice(&sizes)?;
    for _ in 0..phases {
        for _ in 0..u16::from(first) * u16::from(second) {
            bytes.push(random.byte_up_to(last))?;
        }
    }
    Ok(bytes)
}

/// All signals of so many.
fn all(signals: u8) -> u16 {
    match signals {
        1 => 1,
        2 => 3,
        3 => 7,
        _ => 15,
    }
}

/// A set for each phase that is not empty: any, or in half the draws all signals.
fn many(random: &mut Random, phases: u8, signals: u8) -> u32 {
    let (whole, all) = (random.once_in(2), all(signals));
    let mut sets = 0u32;
    for _ in 0..phases {
        let set = if whole {
            all
        } else {
            1 + random.up_to(all.saturating_sub(1))
        };
        sets = sets << 4 | u32::from(set);
    }
    sets
}

/// A set for each phase that is not empty: mostly one signal.
fn few(random: &mut Random, phases: u8, signals: u8) -> u32 {
    let (single, all) = (!random.once_in(4), all(signals));
    let mut sets = 0u32;
    for _ in 0..phases {
        let set = if single {
            1 << random.byte_up_to(3) & all
        } else {
            1 + random.up_to(all.saturating_sub(1))
        };
        sets = sets << 4 | u32::from(set.max(1));
    }
    sets
}

/// Terms that can be signed, since each reliance has at least the other's promise. The side that plays may do much and expects
/// little, or else few games would have a controller.
pub fn terms(random: &mut Random, sizes: [u8; 3], side: u8) -> Sides<Terms> {
    let [phases, first, second] = sizes;
    let (own, partner) = if side == 0 {
        (first, second)
    } else {
        (second, first)
    };
    let promise = many(random, phases, own);
    let expected = few(random, phases, partner);
    let more = if random.once_in(4) {
        few(random, phases, partner)
    } else {
        0
    };
    let playing = Terms {
        promise,
        reliance: expected | more,
    };
    let other = Terms {
        promise: expected,
        reliance: promise | many(random, phases, own),
    };
    if side == 0 {
        Sides {
            first: playing,
            second: other,
        }
    } else {
        Sides {
            first: other,
            second: playing,
        }
    }
}
