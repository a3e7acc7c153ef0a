// The fields of a record as numbers.
ghost use Rattle.std.specs.Prelude.{◌≡◌, ◌+◌, ◌<◌};
ghost use Rattle.record_codec.specs.Record.{bytes_of, eight_at, four_at, row_of, two_at};

// What the fields of a record say, in the order of their offsets. A field that the event does not have is zero.
#[derive(Clone, Copy)]
pub(crate) struct Row {
    pub(crate) form: u8,
    pub(crate) kind: u8,
    pub(crate) caller: u16,
    pub(crate) own: u32,
    pub(crate) place: u64,
    pub(crate) participant: u16,
    pub(crate) side: u8,
    pub(crate) limit: u8,
    pub(crate) price: u32,
    pub(crate) quantity: u32,
    pub(crate) target: u32,
    pub(crate) moment: u32,
    pub(crate) node: u8,
}

// The record of these fields.
#[inline(always)]
pub(crate) fn write_row(row: Row) -> [u8; 48]
    ensures { result ≡ bytes_of row }
{
    let mut rec = [0; 48];
    rec[0] = row.form;
    rec[1] = row.kind;
    rec[2..4].copy_from_slice(&row.caller.to_be_bytes());
    rec[4..8].copy_from_slice(&row.own.to_be_bytes());
    rec[8..16].copy_from_slice(&row.place.to_be_bytes());
    rec[16..18].copy_from_slice(&row.participant.to_be_bytes());
    rec[18] = row.side;
    rec[19] = row.limit;
    rec[20..24].copy_from_slice(&row.price.to_be_bytes());
    rec[24..28].copy_from_slice(&row.quantity.to_be_bytes());
    rec[28..32].copy_from_slice(&row.target.to_be_bytes());
    rec[32..36].copy_from_slice(&row.moment.to_be_bytes());
    rec[36] = row.node;
    rec
}

// The fields of a record.
#[tactic(auto, unfolding(crate::specs::Record::row_of))]
pub(crate) fn read_row(rec: &[u8; 48]) -> Row
    ensures { result ≡ row_of rec.now }
{
    Row {
        form: rec[0],
        kind: rec[1],
        caller: two_at(rec, 2),
        own: four_at(rec, 4),
        place: eight_at(rec, 8),
        participant: two_at(rec, 16),
        side: rec[18],
        limit: rec[19],
        price: four_at(rec, 20),
        quantity: four_at(rec, 24),
        target: four_at(rec, 28),
        moment: four_at(rec, 32),
        node: rec[36],
    }
}

#[tactic(auto, unfolding(crate::specs::Record::two_at))]
fn two_at(rec: &[u8; 48], i: usize) -> u16
    requires { i + 1 < 48 }
    ensures { result ≡ two_at rec.now i }
{
    u16::from_be_bytes([rec[i], rec[i + 1]])
}

#[tactic(auto, unfolding(crate::specs::Record::four_at))]
fn four_at(rec: &[u8; 48], i: usize) -> u32
    requires { i + 3 < 48 }
    ensures { result ≡ four_at rec.now i }
{
    u32::from_be_bytes([rec[i], rec[i + 1], rec[i + 2], rec[i + 3]])
}

#[tactic(auto, unfolding(crate::specs::Record::eight_at))]
fn eight_at(rec: &[u8; 48], i: usize) -> u64
    requires { i + 7 < 48 }
    ensures { result ≡ eight_at rec.now i }
{
    u64::from_be_bytes([
        rec[i],
        rec[i + 1],
        rec[i + 2],
        rec[i + 3],
        rec[i + 4],
        rec[i + 5],
        rec[i + 6],
        rec[i + 7],
    ])
}
