//! All that a machine keeps, and the single things that happen in it.
use crate::slot::Slot;
use std::marker::Model;
use tx_journal::{Entry, Event};
use tx_ladder::StopQueue;
use tx_lines::Lines;

/// The CPUs, storage with the holders of its lines, the stop queue, the history and the recorded events.
#[derive(Drop)]
pub struct Works {
    pub slots: Vec<Slot>,
    pub lines: Lines,
    pub queue: StopQueue,
    pub history: Vec<Entry>,
    pub events: Vec<Event>,
}

impl Model for Works {
    ghost use Rattle.std.specs.Prelude.{vec_capacity, vec_len};
    ghost use Rattle.tx_works.specs.Works.{Works, IsFitted};

    ghost Value = { Works };

    ghost view = { λ w. record {
      slots = w.slots.items;
      lines = w.lines;
      queue = w.queue.order;
      history = w.history.items;
      events = w.events.items;
      room = vec_capacity w.history;
      events_room = vec_capacity w.events;
    } };

    ghost invariant = { λ w. IsFitted (vec_len w.slots) w.lines.cpus w.queue.cpus };
}
