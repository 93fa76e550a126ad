//! Tests of the top call: what is written and the status, for the words, the bytes of the source, and the calls that
//! fail. Each table is one test, and each row is one run.

use crate::test_devices::{Damaged, over, words_of};
use cds_base::{MemSink, MemSource};
use cds_keep::{Keeper, MapKeeper};
use std::alloc::Global;
use std::test::Fail;

const PEAKS: &str = "peaks --bunch 1 --on 5 --off 5 --plateau 3";

// The status and what the sink holds, where a call of a device moves at most nine bytes; of the source, the sink and
// the keeper the call of this number fails, and none where it is 0.
fn ended(alloc: Global, line: &str, bytes: &str, failing: [u64; 3]) -> Result<(u8, Vec<u8>), Fail> {
    let words = words_of(alloc, line)?;
    let mut keeper = MapKeeper::new(alloc, &[failing[2]])?;
    let mut source = MemSource::new(alloc, bytes.as_bytes(), 9, &[failing[0]])?;
    let mut sink = MemSink::new(alloc, 9, &[failing[1]])?;
    let status = over(alloc, &words, &mut source, &mut sink, &mut keeper)?;
    Ok((status, Vec::from_slice(alloc, sink.written())?))
}

#[test]
fn peaks_answers_a_trace(rt: HostRuntime) -> Result<(), Fail> {
    let rows = [
        (
            "one peak, from the sample where it begins to rise to the one where it has fallen",
            "time_us,signal\n0,0\n1000000,0\n2000000,0\n3000000,10\n4000000,40\n5000000,60\n6000000,40\n7000000,10\n8000000,0\n9000000,0\n10000000,0\n",
            0,
            "peak,start,apex,end\n1,1,5,8\n",
        ),
        (
            "two samples have no class",
            "time_us,signal\n0,7\n1000000,7\n",
            0,
            "peak,start,apex,end\n",
        ),
        (
            "a climb is abandoned at its fourth flat class, and the next one is a peak",
            "time_us,signal\n0,0\n1000000,0\n2000000,10\n3000000,10\n4000000,10\n5000000,10\n6000000,10\n7000000,10\n8000000,20\n9000000,40\n10000000,20\n11000000,10\n12000000,10\n13000000,10\n",
            0,
            "peak,start,apex,end\n1,6,9,11\n",
        ),
        (
            "the classes end in a fall: the peak ends with the trace",
            "time_us,signal\n0,0\n1000000,0\n2000000,0\n3000000,20\n4000000,60\n5000000,100\n6000000,80\n7000000,60\n8000000,40\n",
            0,
            "peak,start,apex,end\n1,1,5,8\n",
        ),
        (
            "an apex at the end of its range is no peak",
            "time_us,signal\n0,0\n1000000,10\n2000000,20\n3000000,0\n4000000,20\n",
            0,
            "peak,start,apex,end\n",
        ),
        (
            "two peaks that touch",
            "time_us,signal\n0,0\n1000000,0\n2000000,0\n3000000,10\n4000000,40\n5000000,60\n6000000,40\n7000000,20\n8000000,40\n9000000,60\n10000000,40\n11000000,10\n12000000,0\n13000000,0\n14000000,0\n",
            0,
            "peak,start,apex,end\n1,1,5,6\n2,7,9,12\n",
        ),
        (
            "blanks around fields are passed over",
            "time_us\t, signal \n0,1\n 1000 ,\t2\n",
            0,
            "peak,start,apex,end\n",
        ),
        (
            "refusals name their number, and their record where they have one",
            "",
            1,
            "refused 2\n",
        ),
        (
            "refusals name their number, and their record where they have one",
            "time_us,signal\n0,1\n",
            1,
            "refused 5\n",
        ),
        (
            "refusals name their number, and their record where they have one",
            "time_us,signal\n0,1\n1000,x\n",
            1,
            "refused 3 record 3\n",
        ),
        (
            "refusals name their number, and their record where they have one",
            "time_us,signal\n0,1\n1000,2\n2500,3\n",
            1,
            "refused 4 record 4\n",
        ),
        (
            "refusals name their number, and their record where they have one",
            "time_us,signal\n0,100000001\n",
            1,
            "refused 7 record 2\n",
        ),
        (
            "refusals name their number, and their record where they have one",
            "time_us,signal\n0,1\n1000,2,3\n",
            1,
            "refused 1 record 3\n",
        ),
    ];
    for (name, bytes, status, text) in rows {
        let (found, written) = ended(rt.alloc(), PEAKS, bytes, [0, 0, 0])?;
        assert_eq!(rt; written.as_slice(), text.as_bytes(), "{name}");
        assert_eq!(rt; found, status, "{name}");
    }
    Ok(())
}

#[test]
fn words_are_a_command_or_none(rt: HostRuntime) -> Result<(), Fail> {
    let rows = [
        ("peaks", 2),
        ("", 2),
        ("peaks --bunch 1 --on 5 --off 5 --plateau 3 3", 2),
        ("peaks --on 5 --bunch 1 --plateau=3 --off 5", 1),
        ("peaks --bunch 1 --on 5 --on 5 --off 5 --plateau 3", 2),
        ("peaks --bunch 1 --on -5 --off 5 --plateau 3", 2),
        ("peaks --bunch= --on 5 --off 5 --plateau 3", 2),
        ("peaks --bunch 1 --on 5 --off 5 --plateau", 2),
        ("peaks --bunch 1 --on 5 --off 5 --plateau 3 --port 80", 2),
        ("peaks --bunch=1 --on 5 --off 5 --plateau 3 3", 2),
        ("peaks --bunch 0 --on 5 --off 5 --plateau 3", 2),
        ("peaks --bunch 65 --on 5 --off 5 --plateau 3", 2),
        (
            "peaks --bunch 64 --on 1000000000 --off 1000000000 --plateau 1000",
            1,
        ),
        ("peaks --bunch 1 --on 0 --off 5 --plateau 3", 2),
        ("peaks --bunch 1 --on 1000000001 --off 5 --plateau 3", 2),
        ("peaks --bunch 1 --on 5 --off 1000000001 --plateau 3", 2),
        ("peaks --bunch 1 --on 5 --off 5 --plateau 0", 1),
        ("session", 0),
        ("session session", 2),
        ("session --store a.db", 0),
        ("session --store=a.db", 0),
        ("session --store a.db --store a.db", 2),
        ("serve --port 80", 2),
        ("serve --port 0 --connections 1", 2),
        ("serve --port 65536 --connections 1", 2),
        ("serve --connections 1000001 --port 80", 2),
        ("serve --connections 1000000 --port 65535 --store a.db", 7),
        ("sessions", 2),
        ("peaks --bunch 1 --on 5 --off 5 --plateau 1001", 2),
        ("peaks --bunch +1 --on 5 --off 5 --plateau 3", 2),
        (
            "peaks --bunch 00000000000000000001 --on 5 --off 5 --plateau 3",
            1,
        ),
        (
            "peaks --bunch 000000000000000000001 --on 5 --off 5 --plateau 3",
            2,
        ),
    ];
    for (line, status) in rows {
        let (found, _) = ended(rt.alloc(), line, "", [0, 0, 0])?;
        assert_eq!(rt; found, status, "{line}");
    }
    Ok(())
}

#[test]
fn session_answers_requests(rt: HostRuntime) -> Result<(), Fail> {
    let rows = [
        (
            "a trace is put, put again and read back; empty lines between messages are passed over",
            "\r\nPUT /traces/flat HTTP/1.1\r\nContent-Length: 29\r\n\r\ntime_us,signal\n0,7\n1000000,7\nPUT /traces/flat HTTP/1.1\r\nContent-Length: 29\r\n\r\ntime_us,signal\n0,7\n1000000,7\n\nGET /traces/flat/1?x=1 HTTP/1.1\r\n\r\n\n",
            0,
            "HTTP/1.1 201 Created\r\nContent-Type: application/json\r\nContent-Length: 43\r\n\r\n{\"samples\":2,\"unchanged\":false,\"version\":1}HTTP/1.1 200 OK\r\nContent-Type: application/json\r\nContent-Length: 42\r\n\r\n{\"samples\":2,\"unchanged\":true,\"version\":1}HTTP/1.1 200 OK\r\nContent-Type: text/csv\r\nContent-Length: 29\r\n\r\ntime_us,signal\n0,7\n1000000,7\n",
        ),
        (
            "a body is asked for",
            "PUT /traces/flat HTTP/1.1\r\nHost: localhost\r\nExpect: 100-continue\r\nContent-Length: 29\r\n\r\ntime_us,signal\n0,7\n1000000,7\n",
            0,
            "HTTP/1.1 100 Continue\r\n\r\nHTTP/1.1 201 Created\r\nContent-Type: application/json\r\nContent-Length: 43\r\n\r\n{\"samples\":2,\"unchanged\":false,\"version\":1}",
        ),
        (
            "paths that name nothing",
            "GET /none HTTP/1.1\r\n\r\nGET /traces/flat/01 HTTP/1.1\r\n\r\nGET /traces/a%20b/1 HTTP/1.1\r\n\r\nGET /traces/flat/ HTTP/1.1\r\n\r\nGET /traces/flat/4294967296 HTTP/1.1\r\n\r\nGET /methods/m HTTP/1.1\r\n\r\nGET /methods/m/versions/0 HTTP/1.1\r\n\r\nPUT /methods/m%20/draft HTTP/1.1\r\n\r\n",
            0,
            "HTTP/1.1 404 Not Found\r\nContent-Type: application/json\r\nContent-Length: 39\r\n\r\n{\"error\":\"route\",\"number\":0,\"value\":\"\"}HTTP/1.1 404 Not Found\r\nContent-Type: application/json\r\nContent-Length: 39\r\n\r\n{\"error\":\"route\",\"number\":0,\"value\":\"\"}HTTP/1.1 404 Not Found\r\nContent-Type: application/json\r\nContent-Length: 39\r\n\r\n{\"error\":\"route\",\"number\":0,\"value\":\"\"}HTTP/1.1 404 Not Found\r\nContent-Type: application/json\r\nContent-Length: 39\r\n\r\n{\"error\":\"route\",\"number\":0,\"value\":\"\"}HTTP/1.1 404 Not Found\r\nContent-Type: application/json\r\nContent-Length: 39\r\n\r\n{\"error\":\"route\",\"number\":0,\"value\":\"\"}HTTP/1.1 404 Not Found\r\nContent-Type: application/json\r\nContent-Length: 39\r\n\r\n{\"error\":\"route\",\"number\":0,\"value\":\"\"}HTTP/1.1 404 Not Found\r\nContent-Type: application/json\r\nContent-Length: 39\r\n\r\n{\"error\":\"route\",\"number\":0,\"value\":\"\"}HTTP/1.1 404 Not Found\r\nContent-Type: application/json\r\nContent-Length: 39\r\n\r\n{\"error\":\"route\",\"number\":0,\"value\":\"\"}",
        ),
        (
            "methods that a path doesn't take",
            "POST /traces/flat HTTP/1.1\r\n\r\nPUT /traces/flat/1 HTTP/1.1\r\n\r\nGET /methods/m/draft HTTP/1.1\r\n\r\nGET /methods/m/versions HTTP/1.1\r\n\r\nPUT /methods/m/versions/1 HTTP/1.1\r\n\r\nPOST /sequences/b1/results HTTP/1.1\r\n\r\nPUT /sequences/b1/results/2 HTTP/1.1\r\n\r\nHEAD /sequences/b1/suitability HTTP/1.1\r\n\r\n",
            0,
            "HTTP/1.1 405 Method Not Allowed\r\nContent-Type: application/json\r\nContent-Length: 43\r\nAllow: PUT\r\n\r\n{\"error\":\"method\",\"number\":0,\"value\":\"PUT\"}HTTP/1.1 405 Method Not Allowed\r\nContent-Type: application/json\r\nContent-Length: 43\r\nAllow: GET\r\n\r\n{\"error\":\"method\",\"number\":0,\"value\":\"GET\"}HTTP/1.1 405 Method Not Allowed\r\nContent-Type: application/json\r\nContent-Length: 43\r\nAllow: PUT\r\n\r\n{\"error\":\"method\",\"number\":0,\"value\":\"PUT\"}HTTP/1.1 405 Method Not Allowed\r\nContent-Type: application/json\r\nContent-Length: 44\r\nAllow: POST\r\n\r\n{\"error\":\"method\",\"number\":0,\"value\":\"POST\"}HTTP/1.1 405 Method Not Allowed\r\nContent-Type: application/json\r\nContent-Length: 43\r\nAllow: GET\r\n\r\n{\"error\":\"method\",\"number\":0,\"value\":\"GET\"}HTTP/1.1 405 Method Not Allowed\r\nContent-Type: application/json\r\nContent-Length: 43\r\nAllow: GET\r\n\r\n{\"error\":\"method\",\"number\":0,\"value\":\"GET\"}HTTP/1.1 405 Method Not Allowed\r\nContent-Type: application/json\r\nContent-Length: 43\r\nAllow: GET\r\n\r\n{\"error\":\"method\",\"number\":0,\"value\":\"GET\"}HTTP/1.1 405 Method Not Allowed\r\nContent-Type: application/json\r\nContent-Length: 43\r\nAllow: GET\r\n\r\n",
        ),
        (
            "versions that aren't there",
            "GET /traces/flat/4294967295 HTTP/1.1\r\n\r\nPUT /traces/flat HTTP/1.1\r\nContent-Length: 29\r\n\r\ntime_us,signal\n0,7\n1000000,7\nGET /traces/flat/2 HTTP/1.1\r\n\r\nGET /methods/m/versions/1 HTTP/1.1\r\n\r\n",
            0,
            "HTTP/1.1 404 Not Found\r\nContent-Type: application/json\r\nContent-Length: 44\r\n\r\n{\"error\":\"absent\",\"number\":1,\"value\":\"flat\"}HTTP/1.1 201 Created\r\nContent-Type: application/json\r\nContent-Length: 43\r\n\r\n{\"samples\":2,\"unchanged\":false,\"version\":1}HTTP/1.1 404 Not Found\r\nContent-Type: application/json\r\nContent-Length: 39\r\n\r\n{\"error\":\"absent\",\"number\":3,\"value\":2}HTTP/1.1 404 Not Found\r\nContent-Type: application/json\r\nContent-Length: 41\r\n\r\n{\"error\":\"absent\",\"number\":2,\"value\":\"m\"}",
        ),
        (
            "traces that are refused",
            "PUT /traces/flat HTTP/1.1\r\nContent-Length: 19\r\n\r\ntime_us,signal\n0,1\nPUT /traces/flat HTTP/1.1\r\nContent-Length: 26\r\n\r\ntime_us,signal\n0,1\n1000,x\nPUT /traces/flat HTTP/1.1\r\nContent-Length: 27\r\n\r\ntime_us,signal\n0,1\n1000,2,3PUT /traces/flat HTTP/1.1\r\nContent-Length: 0\r\n\r\nPUT /traces/flat HTTP/1.1\r\nContent-Length: 32\r\n\r\ntime_us,signal\n0,1\n1000,2\n2500,3PUT /traces/flat HTTP/1.1\r\nContent-Length: 26\r\n\r\ntime_us,signal\n0,100000001",
            0,
            "HTTP/1.1 400 Bad Request\r\nContent-Type: application/json\r\nContent-Length: 36\r\n\r\n{\"error\":\"csv\",\"number\":5,\"value\":0}HTTP/1.1 400 Bad Request\r\nContent-Type: application/json\r\nContent-Length: 36\r\n\r\n{\"error\":\"csv\",\"number\":3,\"value\":3}HTTP/1.1 400 Bad Request\r\nContent-Type: application/json\r\nContent-Length: 36\r\n\r\n{\"error\":\"csv\",\"number\":1,\"value\":3}HTTP/1.1 400 Bad Request\r\nContent-Type: application/json\r\nContent-Length: 36\r\n\r\n{\"error\":\"csv\",\"number\":2,\"value\":0}HTTP/1.1 400 Bad Request\r\nContent-Type: application/json\r\nContent-Length: 36\r\n\r\n{\"error\":\"csv\",\"number\":4,\"value\":4}HTTP/1.1 400 Bad Request\r\nContent-Type: application/json\r\nContent-Length: 36\r\n\r\n{\"error\":\"csv\",\"number\":7,\"value\":2}",
        ),
        (
            "the older protocol closes the connection behind the response",
            "GET /none HTTP/1.0\r\n\r\nGET",
            0,
            "HTTP/1.1 404 Not Found\r\nContent-Type: application/json\r\nContent-Length: 39\r\nConnection: close\r\n\r\n{\"error\":\"route\",\"number\":0,\"value\":\"\"}",
        ),
        (
            "to HEAD the body is left out, and its length stays",
            "HEAD /traces/flat/1 HTTP/1.1\r\nConnection: close\r\n\r\nGET",
            0,
            "HTTP/1.1 405 Method Not Allowed\r\nContent-Type: application/json\r\nContent-Length: 43\r\nAllow: GET\r\nConnection: close\r\n\r\n",
        ),
        (
            "more fields than a head may have",
            "GET / HTTP/1.1\r\nA: 1\r\nA: 1\r\nA: 1\r\nA: 1\r\nA: 1\r\nA: 1\r\nA: 1\r\nA: 1\r\nA: 1\r\nA: 1\r\nA: 1\r\nA: 1\r\nA: 1\r\nA: 1\r\nA: 1\r\nA: 1\r\nA: 1\r\nA: 1\r\nA: 1\r\nA: 1\r\nA: 1\r\nA: 1\r\nA: 1\r\nA: 1\r\nA: 1\r\nA: 1\r\nA: 1\r\nA: 1\r\nA: 1\r\nA: 1\r\nA: 1\r\nA: 1\r\nA: 1\r\nA: 1\r\nA: 1\r\nA: 1\r\nA: 1\r\nA: 1\r\nA: 1\r\nA: 1\r\nA: 1\r\nA: 1\r\nA: 1\r\nA: 1\r\nA: 1\r\nA: 1\r\nA: 1\r\nA: 1\r\nA: 1\r\nA: 1\r\nA: 1\r\nA: 1\r\nA: 1\r\nA: 1\r\nA: 1\r\nA: 1\r\nA: 1\r\nA: 1\r\nA: 1\r\nA: 1\r\nA: 1\r\nA: 1\r\nA: 1\r\nA: 1\r\nA: 1\r\n\r\n",
            1,
            "HTTP/1.1 431 Request Header Fields Too Large\r\nContent-Type: application/json\r\nContent-Length: 40\r\nConnection: close\r\n\r\n{\"error\":\"fields\",\"number\":0,\"value\":64}",
        ),
        (
            "a head with two lengths; the body of a fault is never left out",
            "HEAD /traces/flat/1 HTTP/1.1\r\nContent-Length: 1, 1\r\n\r\n",
            1,
            "HTTP/1.1 400 Bad Request\r\nContent-Type: application/json\r\nContent-Length: 37\r\nConnection: close\r\n\r\n{\"error\":\"head\",\"number\":0,\"value\":0}",
        ),
        (
            "a body that is cut off",
            "PUT /traces/flat HTTP/1.1\r\nContent-Length: 29\r\n\r\ntime_us,signal\n0,7\n1000000,7",
            1,
            "HTTP/1.1 400 Bad Request\r\nContent-Type: application/json\r\nContent-Length: 42\r\nConnection: close\r\n\r\n{\"error\":\"truncated\",\"number\":0,\"value\":0}",
        ),
        (
            "a body without a length",
            "PUT /traces/flat HTTP/1.1\r\nTransfer-Encoding: chunked\r\n\r\n",
            1,
            "HTTP/1.1 411 Length Required\r\nContent-Type: application/json\r\nContent-Length: 39\r\nConnection: close\r\n\r\n{\"error\":\"length\",\"number\":0,\"value\":0}",
        ),
        (
            "a body that is too long",
            "PUT /traces/flat HTTP/1.1\r\nContent-Length: 16777217\r\n\r\n",
            1,
            "HTTP/1.1 413 Content Too Large\r\nContent-Type: application/json\r\nContent-Length: 44\r\nConnection: close\r\n\r\n{\"error\":\"body\",\"number\":0,\"value\":16777216}",
        ),
        (
            "no head",
            "no head\r\n\r\n",
            1,
            "HTTP/1.1 400 Bad Request\r\nContent-Type: application/json\r\nContent-Length: 37\r\nConnection: close\r\n\r\n{\"error\":\"head\",\"number\":0,\"value\":0}",
        ),
        (
            "a fault behind a request",
            "PUT /traces/flat HTTP/1.1\r\nContent-Length: 29\r\n\r\ntime_us,signal\n0,7\n1000000,7\nGET",
            1,
            "HTTP/1.1 201 Created\r\nContent-Type: application/json\r\nContent-Length: 43\r\n\r\n{\"samples\":2,\"unchanged\":false,\"version\":1}HTTP/1.1 400 Bad Request\r\nContent-Type: application/json\r\nContent-Length: 43\r\nConnection: close\r\n\r\n{\"error\":\"truncated\",\"number\":0,\"value\":78}",
        ),
        (
            "a draft is put, frozen, edited and frozen again",
            "PUT /methods/m/draft HTTP/1.1\r\nContent-Length: 115\r\n\r\nbunch = 1\nslope_on = 5\nslope_off = 5\nplateau = 3\nfuse = 2\nmin_area = 1\nmin_height = 1\nweight = \"origin\" # as sent\r\nPUT /methods/m/draft HTTP/1.1\r\nContent-Length: 115\r\n\r\nbunch = 1\nslope_on = 5\nslope_off = 5\nplateau = 3\nfuse = 2\nmin_area = 1\nmin_height = 1\nweight = \"origin\" # as sent\r\nPOST /methods/m/versions HTTP/1.1\r\nContent-Length: 13\r\n\r\n{\"version\":1}POST /methods/m/versions HTTP/1.1\r\nContent-Length: 13\r\n\r\n{\"version\":7}PUT /methods/m/draft HTTP/1.1\r\nContent-Length: 102\r\n\r\nbunch = 1\nslope_on = 5\nslope_off = 5\nplateau = 3\nfuse = 2\nmin_area = 1\nmin_height = 1\nweight = \"equal\"POST /methods/m/versions HTTP/1.1\r\nContent-Length: 13\r\n\r\n{\"version\":1}POST /methods/m/versions HTTP/1.1\r\nContent-Length: 13\r\n\r\n{\"version\":2}GET /methods/m/versions/1 HTTP/1.1\r\n\r\nGET /methods/m/versions/2 HTTP/1.1\r\n\r\n",
            0,
            "HTTP/1.1 201 Created\r\nContent-Type: application/json\r\nContent-Length: 19\r\n\r\n{\"unchanged\":false}HTTP/1.1 200 OK\r\nContent-Type: application/json\r\nContent-Length: 18\r\n\r\n{\"unchanged\":true}HTTP/1.1 201 Created\r\nContent-Type: application/json\r\nContent-Length: 31\r\n\r\n{\"unchanged\":false,\"version\":1}HTTP/1.1 200 OK\r\nContent-Type: application/json\r\nContent-Length: 30\r\n\r\n{\"unchanged\":true,\"version\":1}HTTP/1.1 200 OK\r\nContent-Type: application/json\r\nContent-Length: 19\r\n\r\n{\"unchanged\":false}HTTP/1.1 409 Conflict\r\nContent-Type: application/json\r\nContent-Length: 41\r\n\r\n{\"error\":\"conflict\",\"number\":9,\"value\":2}HTTP/1.1 201 Created\r\nContent-Type: application/json\r\nContent-Length: 31\r\n\r\n{\"unchanged\":false,\"version\":2}HTTP/1.1 200 OK\r\nContent-Type: application/toml\r\nContent-Length: 115\r\n\r\nbunch = 1\nslope_on = 5\nslope_off = 5\nplateau = 3\nfuse = 2\nmin_area = 1\nmin_height = 1\nweight = \"origin\" # as sent\r\nHTTP/1.1 200 OK\r\nContent-Type: application/toml\r\nContent-Length: 102\r\n\r\nbunch = 1\nslope_on = 5\nslope_off = 5\nplateau = 3\nfuse = 2\nmin_area = 1\nmin_height = 1\nweight = \"equal\"",
        ),
        (
            "texts that state no method",
            "PUT /methods/m/draft HTTP/1.1\r\nContent-Length: 1\r\n\r\n[PUT /methods/m/draft HTTP/1.1\r\nContent-Length: 0\r\n\r\nPUT /methods/m/draft HTTP/1.1\r\nContent-Length: 113\r\n\r\nbunch = 1\nslope_on = 5\nslope_off = 5\nplateau = 3\nfuse = 2\nmin_area = 1\nmin_height = 1\nweight = \"equal\"\nbunchh = 1PUT /methods/m/draft HTTP/1.1\r\nContent-Length: 102\r\n\r\nbunch = 1\nslope_on = 5\nslope_off = 5\nplateau = 3\nfuse = 2\nmin_area = 1\nmin_height = 1\nweight = \"least\"PUT /methods/m/draft HTTP/1.1\r\nContent-Length: 205\r\n\r\nbunch = 1\nslope_on = 5\nslope_off = 5\nplateau = 3\nfuse = 2\nmin_area = 1\nmin_height = 1\nweight = \"equal\"\n[[component]]\nname = \"a\"\ntime_ms = 1\nwindow_ms = 1\n[[component]]\nname = \"a\"\ntime_ms = 1\nwindow_ms = 1\nPUT /methods/m/draft HTTP/1.1\r\nContent-Length: 183\r\n\r\nbunch = 1\nslope_on = 5\nslope_off = 5\nplateau = 3\nfuse = 2\nmin_area = 1\nmin_height = 1\nweight = \"equal\"\ncomponent = [0,0,0,0,0,0,0,0,0,0,0,0,0,0,0,0,0,0,0,0,0,0,0,0,0,0,0,0,0,0,0,0,0,]",
            0,
            "HTTP/1.1 400 Bad Request\r\nContent-Type: application/json\r\nContent-Length: 38\r\n\r\n{\"error\":\"toml\",\"number\":1,\"value\":\"\"}HTTP/1.1 400 Bad Request\r\nContent-Type: application/json\r\nContent-Length: 43\r\n\r\n{\"error\":\"toml\",\"number\":2,\"value\":\"bunch\"}HTTP/1.1 400 Bad Request\r\nContent-Type: application/json\r\nContent-Length: 44\r\n\r\n{\"error\":\"toml\",\"number\":3,\"value\":\"bunchh\"}HTTP/1.1 400 Bad Request\r\nContent-Type: application/json\r\nContent-Length: 44\r\n\r\n{\"error\":\"toml\",\"number\":4,\"value\":\"weight\"}HTTP/1.1 400 Bad Request\r\nContent-Type: application/json\r\nContent-Length: 39\r\n\r\n{\"error\":\"toml\",\"number\":5,\"value\":\"a\"}HTTP/1.1 400 Bad Request\r\nContent-Type: application/json\r\nContent-Length: 47\r\n\r\n{\"error\":\"toml\",\"number\":6,\"value\":\"component\"}",
        ),
        (
            "freezes that are refused",
            "POST /methods/m/versions HTTP/1.1\r\nContent-Length: 1\r\n\r\n[POST /methods/m/versions HTTP/1.1\r\nContent-Length: 2\r\n\r\n[]POST /methods/m/versions HTTP/1.1\r\nContent-Length: 19\r\n\r\n{\"version\":1,\"x\":1}POST /methods/m/versions HTTP/1.1\r\nContent-Length: 16\r\n\r\n{\"version\":1002}POST /methods/m/versions HTTP/1.1\r\nContent-Length: 13\r\n\r\n{\"version\":1}PUT /methods/m/draft HTTP/1.1\r\nContent-Length: 115\r\n\r\nbunch = 1\nslope_on = 5\nslope_off = 5\nplateau = 3\nfuse = 2\nmin_area = 1\nmin_height = 1\nweight = \"origin\" # as sent\r\nPOST /methods/m/versions HTTP/1.1\r\nContent-Length: 16\r\n\r\n{\"version\":1001}GET /methods/m/versions/1 HTTP/1.1\r\n\r\n",
            0,
            "HTTP/1.1 400 Bad Request\r\nContent-Type: application/json\r\nContent-Length: 38\r\n\r\n{\"error\":\"json\",\"number\":0,\"value\":\"\"}HTTP/1.1 400 Bad Request\r\nContent-Type: application/json\r\nContent-Length: 39\r\n\r\n{\"error\":\"field\",\"number\":0,\"value\":\"\"}HTTP/1.1 400 Bad Request\r\nContent-Type: application/json\r\nContent-Length: 40\r\n\r\n{\"error\":\"field\",\"number\":0,\"value\":\"x\"}HTTP/1.1 400 Bad Request\r\nContent-Type: application/json\r\nContent-Length: 46\r\n\r\n{\"error\":\"field\",\"number\":0,\"value\":\"version\"}HTTP/1.1 404 Not Found\r\nContent-Type: application/json\r\nContent-Length: 41\r\n\r\n{\"error\":\"absent\",\"number\":2,\"value\":\"m\"}HTTP/1.1 201 Created\r\nContent-Type: application/json\r\nContent-Length: 19\r\n\r\n{\"unchanged\":false}HTTP/1.1 409 Conflict\r\nContent-Type: application/json\r\nContent-Length: 41\r\n\r\n{\"error\":\"conflict\",\"number\":9,\"value\":1}HTTP/1.1 404 Not Found\r\nContent-Type: application/json\r\nContent-Length: 39\r\n\r\n{\"error\":\"absent\",\"number\":3,\"value\":1}",
        ),
        (
            "a sequence is put, put again and edited, and its basis rises where its inputs become others",
            "PUT /traces/one HTTP/1.1\r\nContent-Length: 125\r\n\r\ntime_us,signal\n0,0\n1000000,0\n2000000,0\n3000000,10\n4000000,40\n5000000,60\n6000000,40\n7000000,10\n8000000,0\n9000000,0\n10000000,0\nPUT /methods/m/draft HTTP/1.1\r\nContent-Length: 162\r\n\r\nbunch = 1\nslope_on = 5\nslope_off = 5\nplateau = 3\nfuse = 2\nmin_area = 1\nmin_height = 1\nweight = \"origin\"\n[[component]]\nname = \"caf\"\ntime_ms = 5000\nwindow_ms = 500\nPOST /methods/m/versions HTTP/1.1\r\nContent-Length: 13\r\n\r\n{\"version\":1}PUT /sequences/b1 HTTP/1.1\r\nContent-Length: 212\r\n\r\n{\"edition\":0,\"method\":{\"name\":\"m\",\"version\":0},\"standards\":[\"b1\"],\"rows\":[{\"label\":\"S1\",\"kind\":\"standard\",\"trace\":\"one\",\"version\":0,\"amounts\":{\"caf\":16}},{\"label\":\"X1\",\"kind\":\"sample\",\"trace\":\"one\",\"version\":0}]}PUT /sequences/b1 HTTP/1.1\r\nContent-Length: 212\r\n\r\n{\"edition\":0,\"method\":{\"name\":\"m\",\"version\":0},\"standards\":[\"b1\"],\"rows\":[{\"label\":\"S1\",\"kind\":\"standard\",\"trace\":\"one\",\"version\":0,\"amounts\":{\"caf\":16}},{\"label\":\"X1\",\"kind\":\"sample\",\"trace\":\"one\",\"version\":0}]}PUT /sequences/b1/rows/2/events HTTP/1.1\r\nContent-Length: 53\r\n\r\n{\"edition\":1,\"events\":[{\"kind\":\"drop\",\"at_ms\":5000}]}PUT /sequences/b1/rows/2/events HTTP/1.1\r\nContent-Length: 53\r\n\r\n{\"edition\":1,\"events\":[{\"kind\":\"drop\",\"at_ms\":5000}]}POST /sequences/b1/reprocess HTTP/1.1\r\nContent-Length: 25\r\n\r\n{\"edition\":2,\"version\":1}POST /sequences/b1/reprocess HTTP/1.1\r\nContent-Length: 25\r\n\r\n{\"edition\":0,\"version\":1}PUT /sequences/b1 HTTP/1.1\r\nContent-Length: 212\r\n\r\n{\"edition\":1,\"method\":{\"name\":\"m\",\"version\":0},\"standards\":[\"b1\"],\"rows\":[{\"label\":\"S1\",\"kind\":\"standard\",\"trace\":\"one\",\"version\":0,\"amounts\":{\"caf\":16}},{\"label\":\"X1\",\"kind\":\"sample\",\"trace\":\"one\",\"version\":0}]}PUT /sequences/b1 HTTP/1.1\r\nContent-Length: 212\r\n\r\n{\"edition\":3,\"method\":{\"name\":\"m\",\"version\":0},\"standards\":[\"b1\"],\"rows\":[{\"label\":\"S1\",\"kind\":\"standard\",\"trace\":\"one\",\"version\":0,\"amounts\":{\"caf\":16}},{\"label\":\"X1\",\"kind\":\"sample\",\"trace\":\"one\",\"version\":0}]}GET /sequences/b1/signatures/1 HTTP/1.1\r\n\r\nGET /sequences/b2/signatures/1 HTTP/1.1\r\n\r\n",
            0,
            "HTTP/1.1 201 Created\r\nContent-Type: application/json\r\nContent-Length: 44\r\n\r\n{\"samples\":11,\"unchanged\":false,\"version\":1}HTTP/1.1 201 Created\r\nContent-Type: application/json\r\nContent-Length: 19\r\n\r\n{\"unchanged\":false}HTTP/1.1 201 Created\r\nContent-Type: application/json\r\nContent-Length: 31\r\n\r\n{\"unchanged\":false,\"version\":1}HTTP/1.1 201 Created\r\nContent-Type: application/json\r\nContent-Length: 41\r\n\r\n{\"basis\":1,\"edition\":1,\"unchanged\":false}HTTP/1.1 200 OK\r\nContent-Type: application/json\r\nContent-Length: 40\r\n\r\n{\"basis\":1,\"edition\":1,\"unchanged\":true}HTTP/1.1 200 OK\r\nContent-Type: application/json\r\nContent-Length: 41\r\n\r\n{\"basis\":2,\"edition\":2,\"unchanged\":false}HTTP/1.1 200 OK\r\nContent-Type: application/json\r\nContent-Length: 40\r\n\r\n{\"basis\":2,\"edition\":2,\"unchanged\":true}HTTP/1.1 200 OK\r\nContent-Type: application/json\r\nContent-Length: 41\r\n\r\n{\"basis\":2,\"edition\":3,\"unchanged\":false}HTTP/1.1 200 OK\r\nContent-Type: application/json\r\nContent-Length: 40\r\n\r\n{\"basis\":2,\"edition\":3,\"unchanged\":true}HTTP/1.1 409 Conflict\r\nContent-Type: application/json\r\nContent-Length: 41\r\n\r\n{\"error\":\"conflict\",\"number\":7,\"value\":3}HTTP/1.1 200 OK\r\nContent-Type: application/json\r\nContent-Length: 41\r\n\r\n{\"basis\":3,\"edition\":4,\"unchanged\":false}HTTP/1.1 404 Not Found\r\nContent-Type: application/json\r\nContent-Length: 39\r\n\r\n{\"error\":\"absent\",\"number\":6,\"value\":1}HTTP/1.1 404 Not Found\r\nContent-Type: application/json\r\nContent-Length: 42\r\n\r\n{\"error\":\"absent\",\"number\":4,\"value\":\"b2\"}",
        ),
        (
            "sequences that are refused, each with what its path or its body names",
            "PUT /sequences/b1 HTTP/1.1\r\nContent-Length: 212\r\n\r\n{\"edition\":0,\"method\":{\"name\":\"m\",\"version\":0},\"standards\":[\"b1\"],\"rows\":[{\"label\":\"S1\",\"kind\":\"standard\",\"trace\":\"one\",\"version\":0,\"amounts\":{\"caf\":16}},{\"label\":\"X1\",\"kind\":\"sample\",\"trace\":\"one\",\"version\":0}]}PUT /traces/one HTTP/1.1\r\nContent-Length: 125\r\n\r\ntime_us,signal\n0,0\n1000000,0\n2000000,0\n3000000,10\n4000000,40\n5000000,60\n6000000,40\n7000000,10\n8000000,0\n9000000,0\n10000000,0\nPUT /methods/m/draft HTTP/1.1\r\nContent-Length: 162\r\n\r\nbunch = 1\nslope_on = 5\nslope_off = 5\nplateau = 3\nfuse = 2\nmin_area = 1\nmin_height = 1\nweight = \"origin\"\n[[component]]\nname = \"caf\"\ntime_ms = 5000\nwindow_ms = 500\nPOST /methods/m/versions HTTP/1.1\r\nContent-Length: 13\r\n\r\n{\"version\":1}PUT /sequences/b1 HTTP/1.1\r\nContent-Length: 212\r\n\r\n{\"edition\":0,\"method\":{\"name\":\"m\",\"version\":2},\"standards\":[\"b1\"],\"rows\":[{\"label\":\"S1\",\"kind\":\"standard\",\"trace\":\"one\",\"version\":0,\"amounts\":{\"caf\":16}},{\"label\":\"X1\",\"kind\":\"sample\",\"trace\":\"one\",\"version\":0}]}PUT /sequences/b1 HTTP/1.1\r\nContent-Length: 212\r\n\r\n{\"edition\":0,\"method\":{\"name\":\"m\",\"version\":0},\"standards\":[\"b2\"],\"rows\":[{\"label\":\"S1\",\"kind\":\"standard\",\"trace\":\"one\",\"version\":0,\"amounts\":{\"caf\":16}},{\"label\":\"X1\",\"kind\":\"sample\",\"trace\":\"one\",\"version\":0}]}PUT /sequences/b1 HTTP/1.1\r\nContent-Length: 132\r\n\r\n{\"edition\":0,\"method\":{\"name\":\"m\",\"version\":0},\"standards\":[\"b1\"],\"rows\":[{\"label\":\"X1\",\"kind\":\"sample\",\"trace\":\"two\",\"version\":0}]}PUT /sequences/b1 HTTP/1.1\r\nContent-Length: 132\r\n\r\n{\"edition\":0,\"method\":{\"name\":\"m\",\"version\":0},\"standards\":[\"b1\"],\"rows\":[{\"label\":\"X1\",\"kind\":\"sample\",\"trace\":\"one\",\"version\":2}]}PUT /sequences/b1 HTTP/1.1\r\nContent-Length: 189\r\n\r\n{\"edition\":0,\"method\":{\"name\":\"m\",\"version\":0},\"standards\":[\"b1\"],\"rows\":[{\"label\":\"X1\",\"kind\":\"sample\",\"trace\":\"one\",\"version\":0},{\"label\":\"X1\",\"kind\":\"sample\",\"trace\":\"one\",\"version\":0}]}PUT /sequences/b1 HTTP/1.1\r\nContent-Length: 152\r\n\r\n{\"edition\":0,\"method\":{\"name\":\"m\",\"version\":0},\"standards\":[\"b1\"],\"rows\":[{\"label\":\"X1\",\"kind\":\"sample\",\"trace\":\"one\",\"version\":0,\"amounts\":{\"caf\":1}}]}PUT /sequences/b1 HTTP/1.1\r\nContent-Length: 212\r\n\r\n{\"edition\":1,\"method\":{\"name\":\"m\",\"version\":0},\"standards\":[\"b1\"],\"rows\":[{\"label\":\"S1\",\"kind\":\"standard\",\"trace\":\"one\",\"version\":0,\"amounts\":{\"caf\":16}},{\"label\":\"X1\",\"kind\":\"sample\",\"trace\":\"one\",\"version\":0}]}PUT /sequences/b1 HTTP/1.1\r\nContent-Length: 1\r\n\r\n[PUT /sequences/b1 HTTP/1.1\r\nContent-Length: 2\r\n\r\n{}PUT /sequences/b1/rows/1/events HTTP/1.1\r\nContent-Length: 25\r\n\r\n{\"edition\":1,\"events\":[]}POST /sequences/b1/reprocess HTTP/1.1\r\nContent-Length: 25\r\n\r\n{\"edition\":1,\"version\":1}PUT /sequences/b1 HTTP/1.1\r\nContent-Length: 212\r\n\r\n{\"edition\":0,\"method\":{\"name\":\"m\",\"version\":0},\"standards\":[\"b1\"],\"rows\":[{\"label\":\"S1\",\"kind\":\"standard\",\"trace\":\"one\",\"version\":0,\"amounts\":{\"caf\":16}},{\"label\":\"X1\",\"kind\":\"sample\",\"trace\":\"one\",\"version\":0}]}PUT /sequences/b1/rows/3/events HTTP/1.1\r\nContent-Length: 25\r\n\r\n{\"edition\":1,\"events\":[]}PUT /sequences/b1/rows/1/events HTTP/1.1\r\nContent-Length: 40\r\n\r\n{\"edition\":1,\"events\":[{\"kind\":\"drop\"}]}POST /sequences/b1/reprocess HTTP/1.1\r\nContent-Length: 25\r\n\r\n{\"edition\":1,\"version\":2}POST /sequences/b1/reprocess HTTP/1.1\r\nContent-Length: 27\r\n\r\n{\"edition\":1,\"version\":\"1\"}POST /sequences/b1 HTTP/1.1\r\n\r\n",
            0,
            "HTTP/1.1 422 Unprocessable Content\r\nContent-Type: application/json\r\nContent-Length: 39\r\n\r\n{\"error\":\"rule\",\"number\":2,\"value\":\"m\"}HTTP/1.1 201 Created\r\nContent-Type: application/json\r\nContent-Length: 44\r\n\r\n{\"samples\":11,\"unchanged\":false,\"version\":1}HTTP/1.1 201 Created\r\nContent-Type: application/json\r\nContent-Length: 19\r\n\r\n{\"unchanged\":false}HTTP/1.1 201 Created\r\nContent-Type: application/json\r\nContent-Length: 31\r\n\r\n{\"unchanged\":false,\"version\":1}HTTP/1.1 422 Unprocessable Content\r\nContent-Type: application/json\r\nContent-Length: 39\r\n\r\n{\"error\":\"rule\",\"number\":3,\"value\":\"m\"}HTTP/1.1 422 Unprocessable Content\r\nContent-Type: application/json\r\nContent-Length: 40\r\n\r\n{\"error\":\"rule\",\"number\":4,\"value\":\"b2\"}HTTP/1.1 422 Unprocessable Content\r\nContent-Type: application/json\r\nContent-Length: 41\r\n\r\n{\"error\":\"rule\",\"number\":1,\"value\":\"two\"}HTTP/1.1 422 Unprocessable Content\r\nContent-Type: application/json\r\nContent-Length: 41\r\n\r\n{\"error\":\"rule\",\"number\":3,\"value\":\"one\"}HTTP/1.1 422 Unprocessable Content\r\nContent-Type: application/json\r\nContent-Length: 41\r\n\r\n{\"error\":\"rule\",\"number\":11,\"value\":\"X1\"}HTTP/1.1 422 Unprocessable Content\r\nContent-Type: application/json\r\nContent-Length: 38\r\n\r\n{\"error\":\"rule\",\"number\":12,\"value\":1}HTTP/1.1 409 Conflict\r\nContent-Type: application/json\r\nContent-Length: 41\r\n\r\n{\"error\":\"conflict\",\"number\":7,\"value\":0}HTTP/1.1 400 Bad Request\r\nContent-Type: application/json\r\nContent-Length: 38\r\n\r\n{\"error\":\"json\",\"number\":0,\"value\":\"\"}HTTP/1.1 400 Bad Request\r\nContent-Type: application/json\r\nContent-Length: 46\r\n\r\n{\"error\":\"field\",\"number\":0,\"value\":\"edition\"}HTTP/1.1 404 Not Found\r\nContent-Type: application/json\r\nContent-Length: 42\r\n\r\n{\"error\":\"absent\",\"number\":4,\"value\":\"b1\"}HTTP/1.1 404 Not Found\r\nContent-Type: application/json\r\nContent-Length: 42\r\n\r\n{\"error\":\"absent\",\"number\":4,\"value\":\"b1\"}HTTP/1.1 201 Created\r\nContent-Type: application/json\r\nContent-Length: 41\r\n\r\n{\"basis\":1,\"edition\":1,\"unchanged\":false}HTTP/1.1 404 Not Found\r\nContent-Type: application/json\r\nContent-Length: 39\r\n\r\n{\"error\":\"absent\",\"number\":5,\"value\":3}HTTP/1.1 400 Bad Request\r\nContent-Type: application/json\r\nContent-Length: 53\r\n\r\n{\"error\":\"field\",\"number\":0,\"value\":\"events.1.at_ms\"}HTTP/1.1 422 Unprocessable Content\r\nContent-Type: application/json\r\nContent-Length: 39\r\n\r\n{\"error\":\"rule\",\"number\":3,\"value\":\"m\"}HTTP/1.1 400 Bad Request\r\nContent-Type: application/json\r\nContent-Length: 46\r\n\r\n{\"error\":\"field\",\"number\":0,\"value\":\"version\"}HTTP/1.1 405 Method Not Allowed\r\nContent-Type: application/json\r\nContent-Length: 43\r\nAllow: PUT\r\n\r\n{\"error\":\"method\",\"number\":0,\"value\":\"PUT\"}",
        ),
    ];
    for (name, bytes, status, text) in rows {
        let (found, written) = ended(rt.alloc(), "session", bytes, [0, 0, 0])?;
        assert_eq!(rt; written.as_slice(), text.as_bytes(), "{name}");
        assert_eq!(rt; found, status, "{name}");
    }
    Ok(())
}

#[test]
fn a_device_that_fails_ends_the_command(rt: HostRuntime) -> Result<(), Fail> {
    let rows = [
        (
            "a read of a trace fails",
            PEAKS,
            "time_us,signal\n0,0\n1000000,0\n2000000,0\n3000000,10\n4000000,40\n5000000,60\n6000000,40\n7000000,10\n8000000,0\n9000000,0\n10000000,0\n",
            [3, 0, 0],
            3,
            "",
        ),
        (
            "a write of a table fails",
            PEAKS,
            "time_us,signal\n0,0\n1000000,0\n2000000,0\n3000000,10\n4000000,40\n5000000,60\n6000000,40\n7000000,10\n8000000,0\n9000000,0\n10000000,0\n",
            [0, 2, 0],
            4,
            "peak,star",
        ),
        (
            "a write of a refusal fails",
            PEAKS,
            "",
            [0, 2, 0],
            1,
            "refused 2",
        ),
        (
            "a write of the line of usage fails",
            "none",
            "",
            [0, 1, 0],
            2,
            "",
        ),
        (
            "a read of a session fails behind a request",
            "session",
            "PUT /traces/flat HTTP/1.1\r\nContent-Length: 29\r\n\r\ntime_us,signal\n0,7\n1000000,7\n",
            [10, 0, 0],
            3,
            "HTTP/1.1 201 Created\r\nContent-Type: application/json\r\nContent-Length: 43\r\n\r\n{\"samples\":2,\"unchanged\":false,\"version\":1}",
        ),
        (
            "a write of a response fails",
            "session",
            "PUT /traces/flat HTTP/1.1\r\nContent-Length: 29\r\n\r\ntime_us,signal\n0,7\n1000000,7\nPUT /traces/flat HTTP/1.1\r\nContent-Length: 29\r\n\r\ntime_us,signal\n0,7\n1000000,7\n",
            [0, 2, 0],
            4,
            "HTTP/1.1 ",
        ),
        (
            "the load fails",
            "session",
            "PUT /traces/flat HTTP/1.1\r\nContent-Length: 29\r\n\r\ntime_us,signal\n0,7\n1000000,7\n",
            [0, 0, 1],
            5,
            "",
        ),
        (
            "a put fails, and the next one is carried out",
            "session",
            "PUT /traces/flat HTTP/1.1\r\nContent-Length: 29\r\n\r\ntime_us,signal\n0,7\n1000000,7\nGET /traces/flat/1 HTTP/1.1\r\n\r\nPUT /traces/flat HTTP/1.1\r\nContent-Length: 29\r\n\r\ntime_us,signal\n0,7\n1000000,7\n",
            [0, 0, 2],
            0,
            "HTTP/1.1 503 Service Unavailable\r\nContent-Type: application/json\r\nContent-Length: 39\r\n\r\n{\"error\":\"keeper\",\"number\":0,\"value\":0}HTTP/1.1 404 Not Found\r\nContent-Type: application/json\r\nContent-Length: 44\r\n\r\n{\"error\":\"absent\",\"number\":1,\"value\":\"flat\"}HTTP/1.1 201 Created\r\nContent-Type: application/json\r\nContent-Length: 43\r\n\r\n{\"samples\":2,\"unchanged\":false,\"version\":1}",
        ),
    ];
    for (name, line, bytes, failing, status, text) in rows {
        let (found, written) = ended(rt.alloc(), line, bytes, failing)?;
        assert_eq!(rt; written.as_slice(), text.as_bytes(), "{name}");
        assert_eq!(rt; found, status, "{name}");
    }
    Ok(())
}

// A draft and its freeze are kept, and the next session begins with them: it changes nothing. A record that would change
// nothing is none of a store.
#[test]
fn what_a_session_keeps_is_found_by_the_next(rt: HostRuntime) -> Result<(), Fail> {
    let alloc = rt.alloc();
    let words = words_of(alloc, "session")?;
    let mut keeper = MapKeeper::new(alloc, &[])?;
    let runs = [
        (
            0,
            "HTTP/1.1 201 Created\r\nContent-Type: application/json\r\nContent-Length: 19\r\n\r\n{\"unchanged\":false}HTTP/1.1 201 Created\r\nContent-Type: application/json\r\nContent-Length: 31\r\n\r\n{\"unchanged\":false,\"version\":1}",
        ),
        (
            0,
            "HTTP/1.1 200 OK\r\nContent-Type: application/json\r\nContent-Length: 18\r\n\r\n{\"unchanged\":true}HTTP/1.1 200 OK\r\nContent-Type: application/json\r\nContent-Length: 30\r\n\r\n{\"unchanged\":true,\"version\":1}",
        ),
    ];
    for (status, text) in runs {
        let mut source = MemSource::new(alloc, FREEZE.as_bytes(), 64, &[])?;
        let mut sink = MemSink::new(alloc, 4096, &[])?;
        assert_eq!(rt;
            over(alloc, &words, &mut source, &mut sink, &mut keeper)?,
            status
        );
        assert_eq!(rt; sink.written(), text.as_bytes());
    }
    assert_eq!(rt; keeper.content().len(), 2);
    assert_eq!(rt;
        keeper.content().get(1),
        b"\x02\x03\x01m\x00\x00\x00\x01".as_slice()
    );
    assert_eq!(rt; keeper.load("")?.len(), 2);
    keeper.put(b"\x01\x03\x01m\x00\x00\x00\x01")?;
    let mut source = MemSource::new(alloc, FREEZE.as_bytes(), 64, &[])?;
    let mut sink = MemSink::new(alloc, 4, &[])?;
    assert_eq!(rt;
        over(alloc, &words, &mut source, &mut sink, &mut keeper)?,
        8
    );
    assert_eq!(rt; sink.written(), b"damaged 3\n".as_slice());
    assert_eq!(rt; source.left(), FREEZE.as_bytes());
    Ok(())
}

// A store whose record can't be delimited ends the session with its number, and nothing is read.
#[test]
fn a_damaged_record_is_told(rt: HostRuntime) -> Result<(), Fail> {
    let alloc = rt.alloc();
    let words = words_of(alloc, "session")?;
    let mut source = MemSource::new(alloc, FREEZE.as_bytes(), 64, &[])?;
    let mut sink = MemSink::new(alloc, 4, &[])?;
    let mut keeper = Damaged {
        record: 17,
        is_open: false,
        calls: 0,
    };
    let status = over(alloc, &words, &mut source, &mut sink, &mut keeper)?;
    assert_eq!(rt; status, 8);
    assert_eq!(rt; sink.written(), b"damaged 17\n".as_slice());
    assert_eq!(rt; source.left(), FREEZE.as_bytes());
    Ok(())
}

const FREEZE: &str =
    "PUT /methods/m/draft HTTP/1.1\r\nContent-Length: 115\r\n\r\nbunch = 1\nslope_on = 5\nslope_off = 5\nplateau = 3\nfuse = 2\nmin_area = 1\nmin_height = 1\nweight = \"origin\" # as sent\r\nPOST /methods/m/versions HTTP/1.1\r\nContent-Length: 13\r\n\r\n{\"version\":1}";
