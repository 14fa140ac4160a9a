//! The room of each client: how many more operations it may make that take no memory.

ghost use Rattle.std.specs.Prelude.{◌≡◌, ◌+◌, ◌-◌, ◌<◌, ◌^◌, slice_set, IfSome, List, replicate};
ghost use Rattle.arena_core.specs.Arenas.{all_rooms, room_of};

use std::marker::Model;

/// How many clients there are.
const CLIENTS: usize = 32;

/// The rooms of 32 clients, and their sum.
#[derive(Drop)]
pub struct Rooms {
    rooms: [u64; CLIENTS],
    total: u64,
}

impl Model for Rooms {
    ghost use Rattle.std.specs.Prelude.{List, ℕ};

    ghost Value = { List ℕ };

    ghost use Rattle.arena_core.specs.Rooms.{shown, IsRooms};

    ghost view = { shown };

    ghost invariant = { IsRooms };
}

impl Rooms {
    /// No room for anybody.
    pub fn none() -> Self
        ensures { result ≡ replicate 32 0 }
    {
        Rooms {
            rooms: [0; CLIENTS],
            total: 0,
        }
    }

    /// The room of a client.
    pub fn of(&self, client: u32) -> u64
        requires { client < 32 }
        ensures room { result ≡ room_of client self.now }
        ensures total { all_rooms self.now < 2 ^ 64 }
    {
        self.rooms[client as usize]
    }

    /// The sum of all rooms.
    pub fn total(&self) -> u64
        ensures { result ≡ all_rooms self.now }
    {
        self.total
    }

    /// The sum of all rooms if the client had this one, or none where that is no number.
    pub fn total_with(&self, client: u32, room: u64) -> Option<u64>
        requires { client < 32 }
        ensures { IfSome result (λ total. total ≡ all_rooms (slice_set self.now client room)) }
    {
        let others = self.total - self.rooms[client as usize];
        others.checked_add(room)
    }

    /// Gives a client a room.
    pub fn set(&mut self, client: u32, room: u64)
        requires client { client < 32 }
        requires fits { all_rooms (slice_set self.old client room) < 2 ^ 64 }
        ensures { self.new ≡ slice_set self.old client room }
    {
        self.total = self.total - self.rooms[client as usize] + room;
        self.rooms[client as usize] = room;
    }
}
