ghost use Rattle.std.specs.Prelude.{◌≡◌, length};
ghost use Rattle.rpmsg_header.specs.Headers.{is_whole};
ghost use Rattle.rpmsg_header.specs.Services.{service_of};
ghost use Rattle.c_forms.specs.Messages.{head_status, read_status, service_room, service_status, service_told, told_head, with_head, with_service};

use c_forms::{CHeader, CService};

/// Reads the header of a message.
#[unsafe(no_mangle)]
pub extern "C" fn rproc_read_head(message: &[u8], told: &mut CHeader) -> u32
    ensures status { result ≡ read_status (is_whole message.now) }
    ensures told { told.new ≡ told_head (is_whole message.now) message.now told.old }
{
    c_forms::read_head(message, told)
}

/// Writes the header of a message to the start of its buffer.
#[unsafe(no_mangle)]
pub extern "C" fn rproc_write_head(buffer: &mut [u8], src: u32, dst: u32, len: u32) -> u32
    ensures status { result ≡ head_status len (length buffer.old) }
    ensures written { buffer.new ≡ with_head (head_status len (length buffer.old)) src dst len buffer.old }
{
    c_forms::write_head(buffer, src, dst, len)
}

/// Reads the payload of a message to the name service.
#[unsafe(no_mangle)]
pub extern "C" fn rproc_read_service(payload: &[u8], told: &mut CService) -> u32
    ensures status { result ≡ service_status (service_of payload.now) }
    ensures told { told.new ≡ service_told (service_of payload.now) told.old }
{
    c_forms::read_service(payload, told)
}

/// Writes the payload of a message to the name service to the start of a buffer.
#[unsafe(no_mangle)]
pub extern "C" fn rproc_write_service(given: &CService, buffer: &mut [u8]) -> u32
    ensures status { result ≡ service_room (length buffer.old) }
    ensures written { buffer.new ≡ with_service (service_room (length buffer.old)) given.now buffer.old }
{
    c_forms::write_service(given, buffer)
}
