use super::*;
use cds_base::{MemSink, MemSource};
use cds_http::Fault;
use http::StatusCode;
use std::test::Fail;

#[test]
fn fixed_responses_are_these(rt: HostRuntime) -> Result<(), Fail> {
    let rows = [
        (Fixed::Continue, "HTTP/1.1 100 Continue\r\n\r\n"),
        (
            Fixed::Fault(Fault::TooManyFields),
            "HTTP/1.1 431 Request Header Fields Too Large\r\nContent-Type: application/json\r\nContent-Length: 40\r\nConnection: close\r\n\r\n{\"error\":\"fields\",\"number\":0,\"value\":64}",
        ),
        (
            Fixed::NoMemory {
                close: false,
                without_body: false,
            },
            "HTTP/1.1 507 Insufficient Storage\r\nContent-Type: application/json\r\nContent-Length: 39\r\n\r\n{\"error\":\"memory\",\"number\":0,\"value\":0}",
        ),
        (
            Fixed::KeeperFailed {
                close: true,
                without_body: true,
            },
            "HTTP/1.1 503 Service Unavailable\r\nContent-Type: application/json\r\nContent-Length: 39\r\nConnection: close\r\n\r\n",
        ),
    ];
    for (fixed, text) in rows {
        let mut sink = MemSink::new(rt.alloc(), 9, &[])?;
        assert!(rt; send_fixed(&mut sink, fixed).is_ok());
        assert_eq!(rt; sink.written(), text.as_bytes());
    }
    Ok(())
}

#[test]
fn a_reply_is_written_with_its_fields(rt: HostRuntime) -> Result<(), Fail> {
    let shown = word(rt.alloc(), "flat")?;
    let reply = refusal(rt.alloc(), StatusCode::NOT_FOUND, "absent", 1, shown)?;
    let text = response_text(rt.alloc(), &reply, true, false)?;
    assert_eq!(rt;
        text.as_slice(),
        b"HTTP/1.1 404 Not Found\r\nContent-Type: application/json\r\nContent-Length: 44\r\nConnection: close\r\n\r\n{\"error\":\"absent\",\"number\":1,\"value\":\"flat\"}".as_slice()
    );
    Ok(())
}

#[test]
fn a_source_is_read_to_its_end_or_fails(rt: HostRuntime) -> Result<(), Fail> {
    for fails in [0, 3] {
        let mut source = MemSource::new(rt.alloc(), b"trace", 2, &[fails])?;
        match receive(rt.alloc(), &mut source) {
            Ok(bytes) => assert_eq!(rt; bytes.as_slice(), b"trace".as_slice()),
            Err(error) => {
                assert_eq!(rt; error, ReceiveError::Failed);
                assert_eq!(rt; fails, 3);
            }
        }
    }
    Ok(())
}
