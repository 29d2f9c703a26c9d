// Boards and memories that the programs begin with.
ghost use Rattle.std.specs.Prelude.{◌≡◌, ◌≤◌};
ghost use Rattle.std.specs.Fn.{FnOnceReturnsAtMut};
ghost use Rattle.vram.specs.Install.{install_memory};
ghost use Rattle.boardtext.specs.Begun.{addressed, pointed, started};

use board::Board;

// Bytes put into memory, which stays as it was where that is refused. What the programs put there never is.
pub fn put(mem: &mut [u8], bytes: &[u8], at: u32)
    ensures { mem.new ≡ install_memory mem.old bytes.now at }
{
    let _ = vram::install(mem, bytes, at);
}

// The three bytes of an address written to registers, from one on, the lowest first.
fn addressed(board: Board, offset: u32, address: u32) -> Board
    requires { offset ≤ 0x50 }
    ensures { result ≡ addressed offset address board }
{
    let [low, middle, high, _] = address.to_le_bytes();
    board
        .write(offset, low)
        .state
        .write(offset + 1, middle)
        .state
        .write(offset + 2, high)
        .state
}

// A new board with its XDL_ADR and VIDEO_CONTROL written.
pub fn pointed(address: u32, video: u8) -> Board
    ensures { result ≡ pointed address video }
{
    addressed(Board::new(), 0x41, address)
        .write(0x40, video)
        .state
}

// A new board that is told to start its list at an address.
pub fn started(address: u32) -> Board
    ensures { result ≡ started address }
{
    addressed(Board::new(), 0x50, address).write(0x53, 1).state
}

// A state with something changed, as a closure says.
pub fn changed<T: Copy, F: FnOnce(&mut T)>(mut state: T, change: F) -> T
    requires { F.IsAlwaysCallable change }
    ensures { FnOnceReturnsAtMut F.FnOnce change state tt result }
{
    change(&mut state);
    state
}
