// A question of the list, asked of the C interface: a function for each group of its calls, which C has one by one.
// The operations' numbers are those of oracle/compare/src/operations/.
ghost use Rattle.std.specs.Prelude.{◌≤◌};

use wuohtan::{alignment, frame_ranges, frames, page_ranges, pages, phys_addr, tables, virt_addr};

// A status that no call answers, for an operation that there is none of. A number and no None: a line that records it
// for such an operation agrees.
const UNKNOWN: u8 = 252;

// An operation's number, and as many arguments as it has.
#[derive(Clone, Copy)]
pub(crate) struct Question<'a> {
    pub(crate) operation: u64,
    pub(crate) arguments: &'a [u64],
}

// How many arguments the operation has; a number that none has takes as many as before calls had a width.
pub(crate) fn arguments(operation: u64) -> usize
    ensures { result ≤ 6 }
{
    match operation {
        0x13 | 0x23 => 0,
        0x20 | 0x21 | 0x22 | 0x24 | 0x25 | 0x30..=0x32 | 0x38..=0x3b => 1,
        0x16..=0x1f | 0x45 | 0x57 | 0x58 | 0x60..=0x67 => 3,
        0x59 | 0x68 | 0x6b | 0x6c | 0x6d | 0x6f | 0x70 => 4,
        0x6a | 0x6e | 0x71 => 5,
        0x69 | 0x85 | 0x87 | 0x95 | 0x97 => 6,
        0x80..=0x88 | 0x90..=0x97 | 0xa5 | 0xa7 | 0xb5 | 0xb7 => 5,
        0x89..=0x8f | 0x98..=0xbf => 4,
        _ => 2,
    }
}

// How many words the operation's answer has.
pub(crate) fn words(operation: u64) -> usize
    ensures { result ≤ 4 }
{
    match operation {
        0x80 | 0x88 | 0x90 | 0xa0 | 0xb0 => 2,
        0x84..=0x87 | 0x94..=0x97 | 0xa4..=0xa7 | 0xb4..=0xb7 => 4,
        _ => 1,
    }
}

// The displacement that a number of the list stands for: its low 32 bits, with their sign.
fn displacement(number: u64) -> i32 {
    ((number & 0xffff_ffff) as u32).cast_signed()
}

impl Question<'_> {
    // The status that the call answers; its words are in out then.
    pub(crate) fn ask(self, out: &mut [u64]) -> u8 {
        match (self.operation, self.arguments) {
            (0x01, &[a, b]) => alignment::wuohtan_align_down(a, b, out),
            (0x02, &[a, b]) => alignment::wuohtan_align_up(a, b, out),
            (0x10..=0x1f, _) => self.ask_virt_addr(out),
            (0x20..=0x2f, _) => self.ask_phys_addr(out),
            (0x30..=0x3f, _) => self.ask_table(out),
            (0x40..=0x4f, _) => self.ask_virt_addr_index(out),
            (0x50..=0x5f, _) => self.ask_frame(out),
            (0x60..=0x7f, _) => self.ask_page(out),
            (0x80..=0x8f, _) => self.ask_page_range(out),
            (0x90..=0x9f, _) => self.ask_page_range_inclusive(out),
            (0xa0..=0xaf, _) => self.ask_frame_range(out),
            (0xb0..=0xbf, _) => self.ask_frame_range_inclusive(out),
            _ => UNKNOWN,
        }
    }

    fn ask_virt_addr(self, out: &mut [u64]) -> u8 {
        match (self.operation, self.arguments) {
            (0x10, &[w, a]) => virt_addr::wuohtan_virt_addr_new(w, a, out),
            (0x11, &[w, a]) => virt_addr::wuohtan_virt_addr_try_new(w, a, out),
            (0x12, &[w, a]) => virt_addr::wuohtan_virt_addr_new_truncate(w, a, out),
            (0x13, &[]) => virt_addr::wuohtan_virt_addr_zero(out),
            (0x14, &[w, a]) => virt_addr::wuohtan_virt_addr_as_u64(w, a, out),
            (0x15, &[w, a]) => virt_addr::wuohtan_virt_addr_is_null(w, a, out),
            (0x16, &[w, a, b]) => virt_addr::wuohtan_virt_addr_align_up(w, a, b, out),
            (0x17, &[w, a, b]) => virt_addr::wuohtan_virt_addr_align_down(w, a, b, out),
            (0x18, &[w, a, b]) => virt_addr::wuohtan_virt_addr_is_aligned(w, a, b, out),
            (0x19, &[w, a, b]) => virt_addr::wuohtan_virt_addr_add(w, a, b, out),
            (0x1a, &[w, a, b]) => virt_addr::wuohtan_virt_addr_sub(w, a, b, out),
            (0x1b, &[w, a, b]) => virt_addr::wuohtan_virt_addr_sub_addr(w, a, b, out),
            (0x1c, &[w, a, b]) => virt_addr::wuohtan_virt_addr_forward_checked_u64(w, a, b, out),
            (0x1d, &[w, a, b]) => virt_addr::wuohtan_virt_addr_backward_checked_u64(w, a, b, out),
            (0x1e, &[w, a, b]) => virt_addr::wuohtan_virt_addr_steps_between_u64(w, a, b, out),
            (0x1f, &[w, a, b]) => virt_addr::wuohtan_virt_addr_add_signed(
                w,
                a,
                displacement(b),
                out,
            ),
            _ => UNKNOWN,
        }
    }

    fn ask_phys_addr(self, out: &mut [u64]) -> u8 {
        match (self.operation, self.arguments) {
            (0x20, &[a]) => phys_addr::wuohtan_phys_addr_new(a, out),
            (0x21, &[a]) => phys_addr::wuohtan_phys_addr_try_new(a, out),
            (0x22, &[a]) => phys_addr::wuohtan_phys_addr_new_truncate(a, out),
            (0x23, &[]) => phys_addr::wuohtan_phys_addr_zero(out),
            (0x24, &[a]) => phys_addr::wuohtan_phys_addr_as_u64(a, out),
            (0x25, &[a]) => phys_addr::wuohtan_phys_addr_is_null(a, out),
            (0x26, &[a, b]) => phys_addr::wuohtan_phys_addr_align_up(a, b, out),
            (0x27, &[a, b]) => phys_addr::wuohtan_phys_addr_align_down(a, b, out),
            (0x28, &[a, b]) => phys_addr::wuohtan_phys_addr_is_aligned(a, b, out),
            (0x29, &[a, b]) => phys_addr::wuohtan_phys_addr_add(a, b, out),
            (0x2a, &[a, b]) => phys_addr::wuohtan_phys_addr_sub(a, b, out),
            (0x2b, &[a, b]) => phys_addr::wuohtan_phys_addr_sub_addr(a, b, out),
            _ => UNKNOWN,
        }
    }

    fn ask_table(self, out: &mut [u64]) -> u8 {
        match (self.operation, self.arguments) {
            (0x30, &[a]) => tables::wuohtan_page_table_index_new(a, out),
            (0x31, &[a]) => tables::wuohtan_page_table_index_new_truncate(a, out),
            (0x32, &[a]) => tables::wuohtan_page_table_index_into_u64(a, out),
            (0x33, &[a, b]) => tables::wuohtan_page_table_index_forward_checked(a, b, out),
            (0x34, &[a, b]) => tables::wuohtan_page_table_index_backward_checked(a, b, out),
            (0x35, &[a, b]) => tables::wuohtan_page_table_index_steps_between(a, b, out),
            (0x38, &[a]) => tables::wuohtan_page_offset_new(a, out),
            (0x39, &[a]) => tables::wuohtan_page_offset_new_truncate(a, out),
            (0x3a, &[a]) => tables::wuohtan_page_offset_into_u64(a, out),
            (0x3c, &[w, a]) => tables::wuohtan_page_table_level_next_lower_level(w, a, out),
            (0x3d, &[w, a]) => tables::wuohtan_page_table_level_next_higher_level(w, a, out),
            (0x3e, &[w, a]) => tables::wuohtan_page_table_level_table_address_space_alignment(
                w, a, out,
            ),
            (0x3f, &[w, a]) => tables::wuohtan_page_table_level_entry_address_space_alignment(
                w, a, out,
            ),
            _ => UNKNOWN,
        }
    }

    fn ask_virt_addr_index(self, out: &mut [u64]) -> u8 {
        match (self.operation, self.arguments) {
            (0x40, &[w, a]) => virt_addr::wuohtan_virt_addr_page_offset(w, a, out),
            (0x41, &[w, a]) => virt_addr::wuohtan_virt_addr_p1_index(w, a, out),
            (0x42, &[w, a]) => virt_addr::wuohtan_virt_addr_p2_index(w, a, out),
            (0x43, &[w, a]) => virt_addr::wuohtan_virt_addr_p3_index(w, a, out),
            (0x44, &[w, a]) => virt_addr::wuohtan_virt_addr_p4_index(w, a, out),
            (0x45, &[w, a, b]) => virt_addr::wuohtan_virt_addr_page_table_index(w, a, b, out),
            _ => UNKNOWN,
        }
    }

    fn ask_frame(self, out: &mut [u64]) -> u8 {
        match (self.operation, self.arguments) {
            (0x50, &[a, b]) => frames::wuohtan_phys_frame_from_start_address(a, b, out),
            (0x51, &[a, b]) => frames::wuohtan_phys_frame_from_pfn(a, b, out),
            (0x52, &[a, b]) => frames::wuohtan_phys_frame_try_from_pfn(a, b, out),
            (0x53, &[a, b]) => frames::wuohtan_phys_frame_containing_address(a, b, out),
            (0x54, &[a, b]) => frames::wuohtan_phys_frame_start_address(a, b, out),
            (0x55, &[a, b]) => frames::wuohtan_phys_frame_size(a, b, out),
            (0x56, &[a, b]) => frames::wuohtan_phys_frame_pfn(a, b, out),
            (0x57, &[a, b, c]) => frames::wuohtan_phys_frame_add(a, b, c, out),
            (0x58, &[a, b, c]) => frames::wuohtan_phys_frame_sub(a, b, c, out),
            (0x59, &[a, b, c, d]) => frames::wuohtan_phys_frame_sub_frame(a, b, c, d, out),
            _ => UNKNOWN,
        }
    }

    fn ask_page(self, out: &mut [u64]) -> u8 {
        match (self.operation, self.arguments) {
            (0x60, &[w, a, b]) => pages::wuohtan_page_from_start_address(w, a, b, out),
            (0x61, &[w, a, b]) => pages::wuohtan_page_containing_address(w, a, b, out),
            (0x62, &[w, a, b]) => pages::wuohtan_page_start_address(w, a, b, out),
            (0x63, &[w, a, b]) => pages::wuohtan_page_size(w, a, b, out),
            (0x64, &[w, a, b]) => pages::wuohtan_page_p1_index(w, a, b, out),
            (0x65, &[w, a, b]) => pages::wuohtan_page_p2_index(w, a, b, out),
            (0x66, &[w, a, b]) => pages::wuohtan_page_p3_index(w, a, b, out),
            (0x67, &[w, a, b]) => pages::wuohtan_page_p4_index(w, a, b, out),
            (0x68, &[w, a, b, c]) => pages::wuohtan_page_page_table_index(w, a, b, c, out),
            (0x69, &[w, a, b, c, d, e]) => pages::wuohtan_page_from_page_table_indices(
                w, a, b, c, d, e, out,
            ),
            (0x6a, &[w, a, b, c, d]) => pages::wuohtan_page_from_page_table_indices_2mib(
                w, a, b, c, d, out,
            ),
            (0x6b, &[w, a, b, c]) => pages::wuohtan_page_from_page_table_indices_1gib(
                w, a, b, c, out,
            ),
            (0x6c, &[w, a, b, c]) => pages::wuohtan_page_add(w, a, b, c, out),
            (0x6d, &[w, a, b, c]) => pages::wuohtan_page_sub(w, a, b, c, out),
            (0x6e, &[w, a, b, c, d]) => pages::wuohtan_page_sub_page(w, a, b, c, d, out),
            (0x6f, &[w, a, b, c]) => pages::wuohtan_page_forward_checked(w, a, b, c, out),
            (0x70, &[w, a, b, c]) => pages::wuohtan_page_backward_checked(w, a, b, c, out),
            (0x71, &[w, a, b, c, d]) => pages::wuohtan_page_steps_between_u64(w, a, b, c, d, out),
            _ => UNKNOWN,
        }
    }

    fn ask_page_range(self, out: &mut [u64]) -> u8 {
        match (self.operation, self.arguments) {
            (0x80, &[w, a, b, c, d]) => page_ranges::wuohtan_page_range_new(w, a, b, c, d, out),
            (0x81, &[w, a, b, c, d]) => page_ranges::wuohtan_page_range_is_empty(
                w, a, b, c, d, out,
            ),
            (0x82, &[w, a, b, c, d]) => page_ranges::wuohtan_page_range_len(w, a, b, c, d, out),
            (0x83, &[w, a, b, c, d]) => page_ranges::wuohtan_page_range_size(w, a, b, c, d, out),
            (0x84, &[w, a, b, c, d]) => page_ranges::wuohtan_page_range_next(w, a, b, c, d, out),
            (0x85, &[w, a, b, c, d, n]) => page_ranges::wuohtan_page_range_nth(
                w, a, b, c, d, n, out,
            ),
            (0x86, &[w, a, b, c, d]) => page_ranges::wuohtan_page_range_next_back(
                w, a, b, c, d, out,
            ),
            (0x87, &[w, a, b, c, d, n]) => page_ranges::wuohtan_page_range_nth_back(
                w, a, b, c, d, n, out,
            ),
            (0x88, &[w, a, b, c, d]) => page_ranges::wuohtan_page_range_as_4kib_page_range(
                w, a, b, c, d, out,
            ),
            _ => UNKNOWN,
        }
    }

    fn ask_page_range_inclusive(self, out: &mut [u64]) -> u8 {
        match (self.operation, self.arguments) {
            (0x90, &[w, a, b, c, d]) => page_ranges::wuohtan_page_range_inclusive_new(
                w, a, b, c, d, out,
            ),
            (0x91, &[w, a, b, c, d]) => page_ranges::wuohtan_page_range_inclusive_is_empty(
                w, a, b, c, d, out,
            ),
            (0x92, &[w, a, b, c, d]) => page_ranges::wuohtan_page_range_inclusive_len(
                w, a, b, c, d, out,
            ),
            (0x93, &[w, a, b, c, d]) => page_ranges::wuohtan_page_range_inclusive_size(
                w, a, b, c, d, out,
            ),
            (0x94, &[w, a, b, c, d]) => page_ranges::wuohtan_page_range_inclusive_next(
                w, a, b, c, d, out,
            ),
            (0x95, &[w, a, b, c, d, n]) => page_ranges::wuohtan_page_range_inclusive_nth(
                w, a, b, c, d, n, out,
            ),
            (0x96, &[w, a, b, c, d]) => page_ranges::wuohtan_page_range_inclusive_next_back(
                w, a, b, c, d, out,
            ),
            (0x97, &[w, a, b, c, d, n]) => page_ranges::wuohtan_page_range_inclusive_nth_back(
                w, a, b, c, d, n, out,
            ),
            _ => UNKNOWN,
        }
    }

    fn ask_frame_range(self, out: &mut [u64]) -> u8 {
        match (self.operation, self.arguments) {
            (0xa0, &[a, b, c, d]) => frame_ranges::wuohtan_phys_frame_range_new(a, b, c, d, out),
            (0xa1, &[a, b, c, d]) => frame_ranges::wuohtan_phys_frame_range_is_empty(
                a, b, c, d, out,
            ),
            (0xa2, &[a, b, c, d]) => frame_ranges::wuohtan_phys_frame_range_len(a, b, c, d, out),
            (0xa3, &[a, b, c, d]) => frame_ranges::wuohtan_phys_frame_range_size(a, b, c, d, out),
            (0xa4, &[a, b, c, d]) => frame_ranges::wuohtan_phys_frame_range_next(a, b, c, d, out),
            (0xa5, &[a, b, c, d, n]) => frame_ranges::wuohtan_phys_frame_range_nth(
                a, b, c, d, n, out,
            ),
            (0xa6, &[a, b, c, d]) => frame_ranges::wuohtan_phys_frame_range_next_back(
                a, b, c, d, out,
            ),
            (0xa7, &[a, b, c, d, n]) => frame_ranges::wuohtan_phys_frame_range_nth_back(
                a, b, c, d, n, out,
            ),
            _ => UNKNOWN,
        }
    }

    fn ask_frame_range_inclusive(self, out: &mut [u64]) -> u8 {
        match (self.operation, self.arguments) {
            (0xb0, &[a, b, c, d]) => frame_ranges::wuohtan_phys_frame_range_inclusive_new(
                a, b, c, d, out,
            ),
            (0xb1, &[a, b, c, d]) => frame_ranges::wuohtan_phys_frame_range_inclusive_is_empty(
                a, b, c, d, out,
            ),
            (0xb2, &[a, b, c, d]) => frame_ranges::wuohtan_phys_frame_range_inclusive_len(
                a, b, c, d, out,
            ),
            (0xb3, &[a, b, c, d]) => frame_ranges::wuohtan_phys_frame_range_inclusive_size(
                a, b, c, d, out,
            ),
            (0xb4, &[a, b, c, d]) => frame_ranges::wuohtan_phys_frame_range_inclusive_next(
                a, b, c, d, out,
            ),
            (0xb5, &[a, b, c, d, n]) => frame_ranges::wuohtan_phys_frame_range_inclusive_nth(
                a, b, c, d, n, out,
            ),
            (0xb6, &[a, b, c, d]) => frame_ranges::wuohtan_phys_frame_range_inclusive_next_back(
                a, b, c, d, out,
            ),
            (0xb7, &[a, b, c, d, n]) => frame_ranges::wuohtan_phys_frame_range_inclusive_nth_back(
                a, b, c, d, n, out,
            ),
            _ => UNKNOWN,
        }
    }
}
