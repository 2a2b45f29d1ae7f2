//! The scripts that the workers run.

/// Two producers put the numbers from 1 to 5 into a buffer of two places, each once, and two consumers add up what they take: 30.
pub(super) const BOUNDED_BUFFER: &[u8] =
    b"dcethr 1\nmutex m\ncond ne\ncond nf\nshared n 0\nshared s0 0\nshared s1 0\nshared total 0\nroutine producer a\nlocal i\nset i 1\nwhile <= i 5\npthread_mutex_lock m\ntry\nwhile == n 2\npthread_cond_wait nf m\nend\nif == n 0\nset s0 i\nelse\nset s1 i\nend\nset n + n 1\npthread_cond_signal ne\nfinally\npthread_mutex_unlock m\nendtry\nset i + i 1\nend\nend\nroutine consumer a\nlocal i\nlocal v\nset i 1\nwhile <= i 5\npthread_mutex_lock m\ntry\nwhile == n 0\npthread_cond_wait ne m\nend\nset n - n 1\nif == n 0\nset v s0\nelse\nset v s1\nend\nset total + total v\npthread_cond_signal nf\nfinally\npthread_mutex_unlock m\nendtry\nset i + i 1\nend\nend\nroutine main a\nlocal p\nlocal q\nlocal r\nlocal s\nlocal v\npthread_mutex_init m default\npthread_cond_init ne\npthread_cond_init nf\npthread_create p default producer 0\npthread_create q default producer 0\npthread_create r default consumer 0\npthread_create s default consumer 0\npthread_join p v\npthread_detach p\npthread_join q v\npthread_detach q\npthread_join r v\npthread_detach r\npthread_join s v\npthread_detach s\nsay total\nend\n";

/// Two threads that count to 20,000 each.
pub(super) const TWO_LOOPS: &[u8] =
    b"dcethr 1\nroutine spin a\nlocal i\nset i 0\nwhile < i 20000\nset i + i 1\nend\nend\nroutine main a\nlocal t\npthread_create t default spin 0\ncall spin 0\nend\n";
